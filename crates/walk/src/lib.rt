// The six best entries of a page, on one way down it.
#![tactic(auto)]

ghost use Rattle.std.specs.Prelude.{◌≡◌, true, false, cond, ◌+◌, ◌-◌, ◌^◌, ◌≤◌, ◌<◌, eqb, ltb, length};
ghost use Rattle.field.specs.Field.{part};
ghost use Rattle.field.specs.Ascii as ascii;
ghost use Rattle.ranking.specs.Held.{no_candidate, or_none, no_sides, no_lead, lateness};
ghost use Rattle.lists.specs.Lists.{is_some};
ghost use Rattle.ranking.specs.declared.Side.TheVariants.{Bid, Offer};
ghost use Rattle.ranking.specs.code.Chosen.{any_other};
ghost use Rattle.keys.specs.Keys.{key_of};
ghost use Rattle.keysets.specs.Sets.{NoneAbove, key_at, key_count, has, set_of, with_member, fold_set};
ghost use Rattle.ranking.specs.code.Choice.{live, choose, sides_from, best_from, lead_from, beyond_of};
ghost use Rattle.quote.specs.Quote.{quote_in, candidate_of, quote_length};
ghost use Rattle.entries.specs.Entries.{as_d, ranks};
ghost use Rattle.page.specs.Page.{quotes_in, page_entries, published_entries};
ghost use Rattle.page.specs.Cut.{cut};
ghost use Rattle.walk.specs.Bests.{bests_of};
ghost use Rattle.walk.specs.code.Walk.{asked, asked_of, maker_at, finra_sides, standing_at, first_by, d_place, odd_step, another, no_shown, shown_of, won_by, kept_by, beside_of, show_step, members_of, decided_by, full_of, is_hidden, InLetters, led_by, leaders_of, stored_first, odd_above, LetterOrNone, mark_of};
ghost use Rattle.walk.specs.code.Cells.{cell_as, best_cell, Kept, goes_before};
ghost use Rattle.page.specs.Layout.{page_length, maker_count, quote_keys_at, first_keys_at};

use page::{Cell, Letter, Page, Slot};
use quote::Level;
use ranking::{Candidate, Lead, Reason, Side, Sides};

/// The six best entries of a symbol; price 0 is none. A national one tells what put it ahead.
#[derive(Clone, Copy)]
pub struct BestEntries {
    pub national: Sides<Lead>,
    pub finra: Sides<Candidate>,
    pub odd: Sides<Candidate>,
}

impl BestEntries {
    pub const NONE: BestEntries = BestEntries {
        national: Sides::<Lead>::NONE,
        finra: Sides::<Candidate>::NONE,
        odd: Sides::<Candidate>::NONE,
    };
}

// The best maker so far on a side: its rank and size, and its cell. Size 0 is none.
#[derive(Clone, Copy)]
struct BestCell {
    rank: u64,
    size: u32,
    cell: u32,
}

impl BestCell {
    const NONE: BestCell = BestCell {
        rank: 0,
        size: 0,
        cell: 0,
    };
}

/// A side of the quote at `at` under a name, none if that side doesn't count.
pub fn quoted(page: &[u8], at: usize, side: Side, name: u32) -> Candidate
    requires { at + quote_length ≤ length page.now }
    ensures { result ≡ or_none (candidate_of side name (quote_in (part page.now at quote_length))) }
{
    // price 8, size 4, time 8
    let level = at + page::in_quote(side);
    let price = field::low64(page, level);
    if price == 0 {
        return Candidate::NONE;
    }
    let size = field::low32(page, level + 8);
    if size == 0 {
        return Candidate::NONE;
    }
    let condition = field::get8(page, at);
    if quote::admits(side, condition) {
        let time = field::low64(page, level + 12);
        return Candidate {
            name,
            price,
            size,
            time,
            condition: condition as u32,
        };
    }
    Candidate::NONE
}

// Whether cell k, of so many lots, goes before the best of the same price: by larger size, earlier time, lower name.
fn is_before(page: &[u8], side: Side, k: usize, lots: u32, best: BestCell) -> bool
    requires page_len { length page.now ≡ page_length }
    requires k_lt_maker_count { (k < maker_count) × (best.cell < maker_count) }
    ensures { result ≡ goes_before page.now side k lots best }
{
    if lots != best.size {
        return best.size < lots;
    }
    let at = page::cell_at(k);
    let to = page::cell_at(best.cell as usize);
    let level = page::in_quote(side);
    let time = field::low64(page, at + Cell::QUOTE + level + 12);
    let before = field::low64(page, to + Cell::QUOTE + level + 12);
    if time != before {
        return time < before;
    }
    field::get32(page, at) < field::get32(page, to)
}

// One cell more that counts by its condition. Most are behind by price, and nothing else of them is read.
fn with_cell(page: &[u8], side: Side, k: usize, best: BestCell) -> BestCell
    requires page_len { length page.now ≡ page_length }
    requires k_lt_maker_count { k < maker_count }
    requires kept { Kept best }
    ensures { (Kept result) × (best_cell page.now side result ≡ choose side (best_cell page.now side best) (cell_as page.now side k)) }
{
    // price 8, size 4, time 8
    let level = page::cell_at(k) + Cell::QUOTE + page::in_quote(side);
    let price = field::low64(page, level);
    let rank = ranking::rank(side, price);
    if rank < best.rank {
        return best;
    }
    let lots = field::low32(page, level + 8);
    if lots == 0 {
        return best;
    }
    if rank == best.rank && (price == 0 || !is_before(page, side, k, lots, best)) {
        return best;
    }
    BestCell {
        rank,
        size: lots,
        cell: k as u32,
    }
}

// The candidate in a best cell.
fn in_cell(page: &[u8], side: Side, best: BestCell) -> Candidate
    requires page_len { length page.now ≡ page_length }
    requires cell_lt_maker_count { best.cell < maker_count }
    ensures { result ≡ best_cell page.now side best }
{
    if best.size == 0 {
        return Candidate::NONE;
    }
    let at = page::cell_at(best.cell as usize);
    Candidate {
        name: field::get32(page, at),
        price: ranking::rank(side, best.rank),
        size: best.size,
        time: field::low64(page, at + Cell::QUOTE + page::in_quote(side) + 12),
        condition: b'R' as u32,
    }
}

// The best of the makers, both sides. Of the conditions of makers only R counts.
fn walk_makers(page: &[u8]) -> Sides<Candidate>
    requires { length page.now ≡ page_length }
    ensures { result ≡ sides_from (asked (maker_at page.now)) 0 maker_count no_sides }
{
    let mut bid = BestCell::NONE;
    let mut offer = BestCell::NONE;
    for k in 0..Page::MAKERS {
        if field::get8(page, page::cell_at(k) + Cell::QUOTE) == b'R' {
            bid = with_cell(page, Side::Bid, k, bid);
            offer = with_cell(page, Side::Offer, k, offer);
        }
    }
    Sides {
        bid: in_cell(page, Side::Bid, bid),
        offer: in_cell(page, Side::Offer, offer),
    }
}

// The FINRA best of a walk that stops behind the letter `last`: none if D is behind it.
fn walk_finra(page: &[u8], last: usize) -> Sides<Candidate>
    requires page_len { length page.now ≡ page_length }
    requires a_le_last { (ascii.A ≤ last) × (last ≤ ascii.Z) }
    ensures { result ≡ finra_sides (cut last page.now) }
{
    if last < Letter::D {
        return Sides::<Candidate>::NONE;
    }
    walk_makers(page)
}

/// D's candidate: its FINRA best, under the letter D.
pub fn as_d(c: Candidate) -> Candidate
    ensures { result ≡ as_d c }
{
    Candidate {
        name: Letter::D as u32,
        ..c
    }
}

// A letter's national candidate: D stands with its FINRA best, S, the processor, has none, any other letter stands with its quote.
fn standing(page: &[u8], letter: usize, side: Side, finra: Candidate) -> Candidate
    requires page_len { length page.now ≡ page_length }
    requires a_le_letter { (ascii.A ≤ letter) × (letter ≤ ascii.Z) }
    ensures { result ≡ standing_at page.now side finra letter }
{
    if letter == Letter::D {
        return as_d(finra);
    }
    if letter == Letter::S {
        return Candidate::NONE;
    }
    slots::quoted(page, letter, side)
}

// Whether a candidate is one: price and size are above zero.
fn stands(c: Candidate) -> bool
    ensures { result ≡ is_some (live c) }
{
    c.price != 0 && c.size != 0
}

// A candidate for D that counts, or none: where nothing else of D is asked, that is handed on, a plain number, in place of its FINRA best.
fn marked(d: bool) -> Candidate
    ensures { result ≡ mark_of d }
{
    if d {
        return Candidate {
            price: 1,
            size: 1,
            ..Candidate::NONE
        };
    }
    Candidate::NONE
}

// Whether a letter's levels rank: D's while its FINRA best has that side, another letter's while its round quote admits it or it has none.
fn ranks(page: &[u8], letter: usize, side: Side, finra: Candidate) -> bool
    requires page_len { length page.now ≡ page_length }
    requires a_le_letter { (ascii.A ≤ letter) × (letter ≤ ascii.Z) }
    ensures { result ≡ ranks side (quotes_in page.now) (live finra) letter }
{
    if letter == Letter::D {
        return stands(finra);
    }
    let condition = field::get8(page, page::slot_at(letter));
    if quote::is_quoted(condition) {
        return quote::admits(side, condition);
    }
    true
}

// The best of a letter's odd-lot levels, if they rank; S has none. They are read best first, so the first one is enough.
fn odd_first(page: &[u8], letter: usize, side: Side, finra: Candidate) -> Candidate
    requires page_len { length page.now ≡ page_length }
    requires a_le_letter { (ascii.A ≤ letter) × (letter ≤ ascii.Z) }
    ensures { result ≡ or_none (first_by page.now side (live finra) letter) }
{
    if letter == Letter::S {
        return Candidate::NONE;
    }
    if ranks(page, letter, side, finra) {
        return slots::first(page, letter, side);
    }
    Candidate::NONE
}

// The leader of the letters A to `last`, in order, and what put it ahead.
fn lead_all(page: &[u8], side: Side, last: usize, finra: Candidate) -> Lead
    requires page_len { length page.now ≡ page_length }
    requires a_le_last { (ascii.A ≤ last) × (last ≤ ascii.Z) }
    ensures { result ≡ lead_from side (standing_at page.now side finra) ascii.A (last + 1 - ascii.A) no_lead }
{
    let mut lead = Lead::NONE;
    for letter in Letter::A..last + 1 {
        lead = ranking::lead_with(side, lead, standing(page, letter, side, finra));
    }
    lead
}

// The best odd lot of the letters A to `last`, in order.
fn odd_all(page: &[u8], side: Side, last: usize, finra: Candidate) -> Candidate
    requires page_len { length page.now ≡ page_length }
    requires a_le_last { (ascii.A ≤ last) × (last ≤ ascii.Z) }
    ensures { result ≡ best_from side (asked_of (first_by page.now side (live finra))) ascii.A (last + 1 - ascii.A) no_candidate }
{
    let mut best = Candidate::NONE;
    for letter in Letter::A..last + 1 {
        best = ranking::choose(side, best, odd_first(page, letter, side, finra));
    }
    best
}

// ---- the whole page: only the letters with the highest key can lead, and only levels with a key above the national best's are beyond it

// A key that none of the letters' and D's is above.
fn top_key(page: &[u8], side: Side, finra: Candidate) -> u32
    requires { length page.now ≡ page_length }
    ensures { (NoneAbove (key_at page.now (quote_keys_at side)) key_count result) × (key_of side finra.price ≤ result) }
{
    let letters = keysets::top(page, page::quote_keys(side));
    keysets::higher(letters, keys::key(side, finra.price))
}

// Whether D's own slot has the highest key. It holds no quote on a page that only these calls have written.
fn has_d(set: u32) -> bool
    ensures { result ≡ has set d_place }
{
    set / 8 % 2 == 1
}

// The letters with the highest key: D is one of them if its FINRA best has it.
fn with_d(set: u32, d: bool) -> u32
    requires { set < 2 ^ key_count }
    ensures { (result ≡ cond d (with_member set d_place) set) × (result < 2 ^ key_count) }
{
    if d {
        return keysets::with_member(set, 3);
    }
    set
}

// Those who may lead: the letters with the highest key, D by its FINRA best's. Nobody, if the highest key is none.
fn members(same: u32, d: u32, top: u32) -> u32
    requires { same < 2 ^ key_count }
    ensures { (result ≡ members_of same d top) × (result < 2 ^ key_count) }
{
    if top == 0 {
        return 0;
    }
    with_d(same, d == top)
}

// What the leader so far shows. Those with the highest key have one price, so that size, time and letter decide, and no more of them is kept.
// Size 0 is none. `decided` is a number as it is in `Lead`, of which the later counts.
#[derive(Clone, Copy)]
struct Shown {
    letter: u32,
    size: u32,
    time: u64,
    decided: u32,
}

impl Shown {
    const NONE: Shown = Shown {
        letter: 0,
        size: 0,
        time: 0,
        decided: 0,
    };
}

// What the letter at place i shows.
fn show(page: &[u8], side: Side, i: u32, finra: Candidate) -> Shown
    requires { (length page.now ≡ page_length) × (i < key_count) }
    ensures { result ≡ shown_of (standing_at page.now side finra (ascii.A + i)) }
{
    let c = standing(page, Letter::A + i as usize, side, finra);
    Shown {
        letter: c.name,
        size: c.size,
        time: c.time,
        decided: 0,
    }
}

// A new leader, and what put it ahead.
fn won(x: Shown, by: Reason) -> Shown
    ensures { result ≡ won_by x (lateness by) }
{
    Shown {
        decided: by as u32,
        ..x
    }
}

// The leader beside one that lost: of the losers' comparisons the latest counts.
fn kept(best: Shown, by: Reason) -> Shown
    ensures { result ≡ kept_by best (lateness by) }
{
    if best.decided < by as u32 {
        return won(best, by);
    }
    best
}

// The leader so far beside one letter more of its price, the letters in order: by larger size, earlier time, lower letter.
fn beside(best: Shown, x: Shown) -> Shown
    ensures { result ≡ beside_of best x }
{
    if x.size == 0 {
        return best;
    }
    if best.size == 0 {
        return x;
    }
    if best.size < x.size {
        return won(x, Reason::Size);
    }
    if x.size < best.size {
        return kept(best, Reason::Size);
    }
    if x.time < best.time {
        return won(x, Reason::Time);
    }
    if best.time < x.time {
        return kept(best, Reason::Time);
    }
    kept(best, Reason::Name)
}

// The leader among letters of one price.
fn leading(page: &[u8], side: Side, set: u32, finra: Candidate) -> Shown
    requires { (length page.now ≡ page_length) × (set < 2 ^ key_count) }
    ensures { result ≡ fold_set (show_step page.now side finra) (has set) 0 key_count no_shown }
{
    let mut left = set;
    let mut best = Shown::NONE;
    while left != 0 {
        let i = keysets::lowest(left);
        left = keysets::without(left, i);
        best = beside(best, show(page, side, i, finra));
    }
    best
}

// Whether a letter counts and is not the leader.
fn is_another(page: &[u8], letter: usize, side: Side, finra: Candidate, leader: u32) -> bool
    requires page_len { length page.now ≡ page_length }
    requires a_le_letter { (ascii.A ≤ letter) × (letter ≤ ascii.Z) }
    ensures { result ≡ another page.now side finra leader letter }
{
    letter as u32 != leader && stands(standing(page, letter, side, finra))
}

// Whether a letter other than the leader counts. Most often the first one asked does.
fn is_other(page: &[u8], side: Side, finra: Candidate, leader: u32) -> bool
    requires { length page.now ≡ page_length }
    ensures { result ≡ any_other (standing_at page.now side finra) leader ascii.A key_count }
{
    for letter in Letter::A..Letter::Z + 1 {
        if is_another(page, letter, side, finra, leader) {
            return true;
        }
    }
    false
}

// What put the leader ahead: price, if it has no second among those of its price and any other letter counts.
fn decided(page: &[u8], side: Side, d: bool, leader: u32, by: u32) -> u32
    requires { length page.now ≡ page_length }
    ensures { result ≡ decided_by page.now side (mark_of d) leader by }
{
    if by != 0 {
        return by;
    }
    if is_other(page, side, marked(d), leader) {
        return Reason::Price as u32;
    }
    0
}

// The key that tells no price.
fn full(side: Side) -> u32
    ensures { result ≡ full_of side }
{
    match side {
        Side::Bid => 4294967295,
        Side::Offer => 1,
    }
}

// Whether all letters have to be looked at: the highest key tells no price, D's own slot has it, or nobody counts who has it.
fn is_hidden(side: Side, top: u32, same: u32, leader: Shown) -> bool
    ensures { result ≡ is_hidden side top same leader.size }
{
    top != 0 && (top == full(side) || has_d(same) || leader.size == 0)
}

// The leader as a candidate.
fn led(page: &[u8], side: Side, finra: Candidate, leader: Shown, by: u32) -> Lead
    requires page_len { length page.now ≡ page_length }
    requires in_letters { InLetters leader }
    ensures { result ≡ led_by page.now side finra leader by }
{
    if leader.size == 0 {
        return Lead::NONE;
    }
    Lead {
        best: standing(page, leader.letter as usize, side, finra),
        decided: by,
    }
}

// A candidate, field by field: what a function that stays out of line gives is not copied in wider moves than it was written in.
fn copied(c: Candidate) -> Candidate
    ensures { result ≡ c }
{
    Candidate {
        name: c.name,
        price: c.price,
        size: c.size,
        time: c.time,
        condition: c.condition,
    }
}

// The same for a leader.
fn copied_lead(l: Lead) -> Lead
    ensures { result ≡ l }
{
    Lead {
        best: copied(l.best),
        decided: l.decided,
    }
}

// Both sides' leaders of the letters A to `last`, every letter looked at.
fn leaders_of_all(page: &[u8], last: usize, finra: Sides<Candidate>) -> Sides<Lead>
    requires page_len { length page.now ≡ page_length }
    requires a_le_last { (ascii.A ≤ last) × (last ≤ ascii.Z) }
    ensures { result ≡ leaders_of page.now last finra }
{
    let bid = lead_all(page, Side::Bid, last, copied(finra.bid));
    let offer = lead_all(page, Side::Offer, last, copied(finra.offer));
    Sides {
        bid: copied_lead(bid),
        offer: copied_lead(offer),
    }
}

// Both sides' leaders of the letters A to `last`. Of a whole page only the letters with the highest key are compared.
// Each step is written for both sides before the next: a function of one side, called twice, is no plainer, as it would have to give back all that the
// tests of both sides ask first.
fn leaders(page: &[u8], last: usize, finra: Sides<Candidate>) -> Sides<Lead>
    requires page_len { length page.now ≡ page_length }
    requires a_le_last { (ascii.A ≤ last) × (last ≤ ascii.Z) }
    ensures { result ≡ leaders_of page.now last finra }
{
    if last < Letter::Z {
        return leaders_of_all(page, last, finra);
    }
    let top_bid = top_key(page, Side::Bid, finra.bid);
    let top_offer = top_key(page, Side::Offer, finra.offer);
    let bids = keysets::same(page, page::quote_keys(Side::Bid), top_bid);
    let offers = keysets::same(page, page::quote_keys(Side::Offer), top_offer);
    let bid_set = members(bids, keys::key(Side::Bid, finra.bid.price), top_bid);
    let offer_set = members(offers, keys::key(Side::Offer, finra.offer.price), top_offer);
    let bid = leading(page, Side::Bid, bid_set, finra.bid);
    let offer = leading(page, Side::Offer, offer_set, finra.offer);
    if is_hidden(Side::Bid, top_bid, bids, bid) {
        return leaders_of_all(page, last, finra);
    }
    if is_hidden(Side::Offer, top_offer, offers, offer) {
        return leaders_of_all(page, last, finra);
    }
    let d_bid = stands(finra.bid);
    let d_offer = stands(finra.offer);
    let bid_by = decided(page, Side::Bid, d_bid, bid.letter, bid.decided);
    let offer_by = decided(page, Side::Offer, d_offer, offer.letter, offer.decided);
    Sides {
        bid: led(page, Side::Bid, finra.bid, bid, bid_by),
        offer: led(page, Side::Offer, finra.offer, offer, offer_by),
    }
}

// The best odd lot among the letters of a set.
fn odd_among(page: &[u8], side: Side, set: u32, finra: Candidate) -> Candidate
    requires { (length page.now ≡ page_length) × (set < 2 ^ key_count) }
    ensures { result ≡ fold_set (odd_step page.now side finra) (has set) 0 key_count no_candidate }
{
    let mut left = set;
    let mut best = Candidate::NONE;
    while left != 0 {
        let i = keysets::lowest(left);
        left = keysets::without(left, i);
        let next = odd_first(page, Letter::A + i as usize, side, finra);
        best = ranking::choose(side, best, next);
    }
    best
}

// The best odd lot of the letters A to `last` that is beyond the national best.
fn odd_stopped(page: &[u8], side: Side, last: usize, finra: Candidate, best: Candidate) -> Candidate
    requires page_len { length page.now ≡ page_length }
    requires a_le_last { (ascii.A ≤ last) × (last ≤ ascii.Z) }
    ensures { result ≡ beyond_of side best (best_from side (asked_of (first_by page.now side (live finra))) ascii.A (last + 1 - ascii.A) no_candidate) }
{
    ranking::beyond(side, best, odd_all(page, side, last, finra))
}

// ---- the best odd lot above a bar. The odd-lot entry that stands in the page is a guess, whatever it holds: if one letter only has a key from the entry's on
// and its first level counts, that is the best. In every other case all letters above the bar are looked at. The functions give the letter, a plain number.

// Where the prices of the odd-lot entries stand: they are the last two of the six, the bid's first.
#[derive(Clone, Copy)]
struct OddEntry {}

impl OddEntry {
    const PRICE: usize = 4;

    const BID: usize = Page::ENTRIES + 4 * Page::ENTRY_LEN + OddEntry::PRICE;

    const OFFER: usize = OddEntry::BID + Page::ENTRY_LEN;
}

// That place for a side.
fn odd_price_at(side: Side) -> usize
    ensures { result + 8 ≤ page_length }
{
    match side {
        Side::Bid => OddEntry::BID,
        Side::Offer => OddEntry::OFFER,
    }
}

// The bar, or one less than the key of the entry if that is higher.
fn odd_floor(page: &[u8], side: Side, bar: u32) -> u32
    requires { length page.now ≡ page_length }
    ensures { bar ≤ result }
{
    let price = field::get64(page, odd_price_at(side));
    keysets::higher(bar, keys::key(side, price).saturating_sub(1))
}

// The letter with the best odd lot among those with a key above `bar`, 0 if there is none.
fn odd_above(page: &[u8], side: Side, d: bool, bar: u32) -> u32
    requires { length page.now ≡ page_length }
    ensures { (LetterOrNone result) × (stored_first page.now side result ≡ odd_above page.now side (mark_of d) bar) }
{
    let set = keysets::above(page, page::first_keys(side), bar);
    let best = odd_among(page, side, set, marked(d));
    best.name
}

// The same letter, where `set` are those with a key above `floor`: the only one of them, if its first level counts.
fn odd_by(page: &[u8], side: Side, d: bool, bar: u32, floor: u32, set: u32) -> u32
    requires page_len { (length page.now ≡ page_length) × (bar ≤ floor) }
    requires set_value { set ≡ set_of (λ i. ltb floor (key_at page.now (first_keys_at side) i)) key_count }
    ensures { (LetterOrNone result) × (stored_first page.now side result ≡ odd_above page.now side (mark_of d) bar) }
{
    if set == 0 {
        if bar < floor {
            return odd_above(page, side, d, bar);
        }
        return 0;
    }
    let i = keysets::lowest(set);
    if keysets::without(set, i) != 0 {
        return odd_above(page, side, d, bar);
    }
    let letter = Letter::A + i as usize;
    let first = odd_first(page, letter, side, marked(d));
    if first.price == 0 {
        return odd_above(page, side, d, bar);
    }
    letter as u32
}

// The first level that stands under a letter, none for 0.
fn odd_at(page: &[u8], side: Side, letter: usize) -> Candidate
    requires { (length page.now ≡ page_length) × (LetterOrNone letter) }
    ensures { result ≡ stored_first page.now side letter }
{
    if letter == 0 {
        return Candidate::NONE;
    }
    let level = Level::get(
        page,
        page::slot_at(letter) + Slot::LEVELS + page::in_levels(side),
    );
    Candidate {
        name: letter as u32,
        price: level.price,
        size: level.size,
        time: level.time,
        condition: 0x20,
    }
}

// The best odd lots beyond the national bests, both sides.
fn walk_odd(
    page: &[u8],
    last: usize,
    finra: Sides<Candidate>,
    bid: Candidate,
    offer: Candidate,
) -> Sides<Candidate>
    requires page_len { length page.now ≡ page_length }
    requires a_le_last { (ascii.A ≤ last) × (last ≤ ascii.Z) }
    ensures { (result.bid ≡ beyond_of Bid bid (best_from Bid (asked_of (first_by page.now Bid (live finra.bid))) ascii.A (last + 1 - ascii.A) no_candidate)) × (result.offer ≡ beyond_of Offer offer (best_from Offer (asked_of (first_by page.now Offer (live finra.offer))) ascii.A (last + 1 - ascii.A) no_candidate)) }
{
    if last < Letter::Z {
        return Sides {
            bid: odd_stopped(page, Side::Bid, last, finra.bid, bid),
            offer: odd_stopped(page, Side::Offer, last, finra.offer, offer),
        };
    }
    let bar_bid = keys::bar(Side::Bid, bid.price);
    let bar_offer = keys::bar(Side::Offer, offer.price);
    let floor_bid = odd_floor(page, Side::Bid, bar_bid);
    let floor_offer = odd_floor(page, Side::Offer, bar_offer);
    let bids = keysets::above(page, page::first_keys(Side::Bid), floor_bid);
    let offers = keysets::above(page, page::first_keys(Side::Offer), floor_offer);
    let d_bid = stands(finra.bid);
    let d_offer = stands(finra.offer);
    let odd_bid = odd_by(page, Side::Bid, d_bid, bar_bid, floor_bid, bids) as usize;
    let odd_offer = odd_by(page, Side::Offer, d_offer, bar_offer, floor_offer, offers) as usize;
    Sides {
        bid: ranking::beyond(Side::Bid, bid, odd_at(page, Side::Bid, odd_bid)),
        offer: ranking::beyond(Side::Offer, offer, odd_at(page, Side::Offer, odd_offer)),
    }
}

/// The six best entries of a page whose letters behind `last` are taken to hold nothing, on one way down it: letters in order, both sides together.
/// Behind Z stands no letter, so that is the whole page.
pub fn walk_page(page: &[u8], last: usize) -> BestEntries
    requires page_len { length page.now ≡ page_length }
    requires a_le_last { (ascii.A ≤ last) × (last ≤ ascii.Z) }
    ensures { result ≡ bests_of (page_entries (cut last page.now)) }
{
    let finra = walk_finra(page, last);
    let national = leaders(page, last, finra);
    let odd = walk_odd(page, last, finra, national.bid.best, national.offer.best);
    BestEntries {
        national,
        finra,
        odd,
    }
}

/// The six entries that such a page publishes: none while its symbol is halted (T-10), wherever it is stopped, else those of the walk.
pub fn entries_behind(page: &[u8], last: usize) -> BestEntries
    requires page_len { length page.now ≡ page_length }
    requires a_le_last { (ascii.A ≤ last) × (last ≤ ascii.Z) }
    ensures { result ≡ bests_of (published_entries (cut last page.now)) }
{
    if page::is_halted(page) {
        return BestEntries::NONE;
    }
    walk_page(page, last)
}
