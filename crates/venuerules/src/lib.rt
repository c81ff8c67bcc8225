// The rules of one message in the form of source document 000 (document 02, T-11): what check 78 asks of it, and check 79.
#![tactic(auto)]

ghost use Rattle.std.specs.Prelude.{◌≡◌, true, ◌&&◌, cond, ◌+◌, ◌≤◌, ◌<◌, length};
ghost use Rattle.lists.specs.Lists.{member, every, between};
ghost use Rattle.venueform.specs.Form.{venue_header, long_round, layout_of, market_in, retail_in, settlement_in, mark_in, item_count};
ghost use Rattle.venuerules.specs.Rules.{pair_good, participant_good, time_good, id_good, reserved_good, reference_good, header_good, control_good, length_good, sender_good, symbol_formed, mark_good, items_good, odd_good, venue_conditions, retail_codes, settlement_codes, market_codes, market_good, maker_formed, finra_good, own_good, round_good, quote_good, layout_good, message_good, our_length, condition_held, quote_placed, placed_by, message_placed};

use block::Block;
use levels::Item;
use message::Layout as Ours;
use venueform::{Form, Venue};

const NANOS_IN_SECOND: u32 = 1000000000;
// $92,233,720,368.547758.
const PRICE_MOST: u64 = 92233720368547758;
// Four spaces.
const SPACES: u32 = 0x20202020;

// 5.2's types of each category, but for T S.
const ADMINISTRATIVE: [u8; 3] = [b'P', b'R', b'W'];

const CONTROL: [u8; 9] = [b'A', b'C', b'I', b'N', b'O', b'R', b'T', b'Z', b'5'];

const QUOTES: [u8; 7] = [b'A', b'P', b'K', b'U', b'R', b'M', b'T'];

// Letters that 5.3 gives to no participant.
const UNUSED: [u8; 4] = [b'E', b'O', b'Q', b'R'];

// 7.0's codes.
const MARKS: [u8; 4] = [b' ', b'B', b'S', b'X'];

const CONDITIONS: [u8; 13] = [
    b'A', b'B', b'C', b'E', b'F', b'H', b'L', b'N', b'O', b'R', b'U', b'W', b'4',
];

const RETAIL: [u8; 4] = [b' ', b'A', b'B', b'C'];

const SETTLEMENT: [u8; 3] = [b' ', b'A', b'B'];

const MARKET: [u8; 3] = [b' ', b'A', b'B'];

const INDICATORS: [u8; 2] = [b'A', b'B'];

/// Check 78 of message i in a block of `count` messages under that number.
#[tactic(auto, unfolding(crate::specs::Rules::message_good))]
pub fn is_message_good(count: usize, sequence: u32, i: usize, msg: &[u8]) -> bool
    requires { (venue_header ≤ length msg.now) × (i < 256) }
    ensures { result ≡ message_good count sequence i msg.now }
{
    is_header_good(i, msg) && is_control_good(count, sequence, msg) && is_body_good(msg)
}

// ---- header

// H1 to H7.
#[tactic(auto, unfolding(crate::specs::Rules::header_good))]
fn is_header_good(i: usize, msg: &[u8]) -> bool
    requires { (venue_header ≤ length msg.now) × (i < 256) }
    ensures { result ≡ header_good i msg.now }
{
    let category = field::byte(msg, Venue::CATEGORY);
    let kind = field::byte(msg, Venue::TYPE);
    let participant = field::byte(msg, Venue::PARTICIPANT);
    is_pair(category, kind)
        && is_participant(participant)
        && is_time_good(msg)
        && is_rest_good(i, msg)
}

// H1.
#[tactic(auto, using(lists::proofs::Iteration::member_any), unfolding(crate::specs::Rules::pair_good))]
fn is_pair(category: u8, kind: u8) -> bool
    ensures { result ≡ pair_good category kind }
{
    match category {
        b'A' => ADMINISTRATIVE.contains(&kind),
        b'C' => CONTROL.contains(&kind),
        b'Q' => QUOTES.contains(&kind),
        b'T' => kind == b'S',
        _ => false,
    }
}

// H2.
#[tactic(auto, using(lists::proofs::Iteration::member_any), unfolding(crate::specs::Rules::participant_good))]
fn is_participant(participant: u8) -> bool
    ensures { result ≡ participant_good participant }
{
    text::is_upper(participant) && !UNUSED.contains(&participant)
}

// H3, H4.
#[tactic(auto, unfolding(crate::specs::Rules::time_good))]
fn is_time_good(msg: &[u8]) -> bool
    requires { venue_header ≤ length msg.now }
    ensures { result ≡ time_good msg.now }
{
    let nanos = field::get32(msg, Venue::NANOS);
    nanos < NANOS_IN_SECOND && (0 < field::get32(msg, Venue::SECONDS) || 0 < nanos)
}

// H5 to H7.
fn is_rest_good(i: usize, msg: &[u8]) -> bool
    requires { (venue_header ≤ length msg.now) × (i < 256) }
    ensures { result ≡ (id_good i msg.now && (reserved_good msg.now && reference_good msg.now)) }
{
    let id = usize::from(field::byte(msg, Venue::ID));
    let reserved = field::get32(msg, Venue::RESERVED);
    id == i + 1 && reserved == SPACES && is_reference_good(msg)
}

// H7.
#[tactic(auto, unfolding(crate::specs::Rules::reference_good, field::specs::Field::part))]
fn is_reference_good(msg: &[u8]) -> bool
    requires { venue_header ≤ length msg.now }
    ensures { result ≡ reference_good msg.now }
{
    field::get64(msg, Venue::REFERENCE) == 0
        || field::get16(msg, Venue::REFERENCE) == 0
            && are_between(&msg[Venue::REFERENCE + 2..Venue::HEADER], 48, 122)
}

// Whether each byte is from low to high.
fn are_between(s: &[u8], low: u8, high: u8) -> bool
    ensures { result ≡ every (between low high) s.now }
{
    s.iter().all(|&x| low <= x && x <= high)
}

// C1, C2.
#[tactic(auto, unfolding(crate::specs::Rules::control_good))]
fn is_control_good(count: usize, sequence: u32, msg: &[u8]) -> bool
    ensures { result ≡ control_good count sequence msg.now }
{
    field::byte(msg, Venue::CATEGORY) != b'C'
        || count == 1 && (field::byte(msg, Venue::TYPE) != b'I' || sequence == 0)
}

// ---- quotes

// Q1 to Q6 and R1 to R9 of a quote that is read.
fn is_body_good(msg: &[u8]) -> bool
    ensures { result ≡ layout_good msg.now (layout_of msg.now) }
{
    let Some(form) = venueform::layout_of(msg) else {
        return true;
    };
    is_quote_good(msg, form)
}

#[tactic(auto, unfolding(crate::specs::Rules::quote_good))]
fn is_quote_good(msg: &[u8], form: Form) -> bool
    ensures { result ≡ quote_good form msg.now }
{
    let n = venueform::item_count(msg, form);
    msg.len() == venueform::item_at(form, n)
        && is_sender_good(msg, form, n)
        && is_symbol_good(msg, form)
        && are_fields_good(msg, form, n)
}

// Q2.
#[tactic(auto, unfolding(crate::specs::Rules::sender_good))]
fn is_sender_good(msg: &[u8], form: Form, n: usize) -> bool
    requires { n ≡ item_count form msg.now }
    ensures { result ≡ sender_good form msg.now }
{
    field::byte(msg, Venue::PARTICIPANT) != b'D' || form.round && form.long && n == 0
}

// Q3.
fn is_symbol_good(msg: &[u8], form: Form) -> bool
    requires { length_good form msg.now ≡ true }
    ensures { result ≡ symbol_formed form msg.now }
{
    let end = Venue::HEADER + venueform::symbol_len(form);
    text::is_padded(&msg[Venue::HEADER..end], 33, 126)
}

// Q4 to Q6, R1 to R9.
#[tactic(auto, using(lists::proofs::Iteration::member_any))]
fn are_fields_good(msg: &[u8], form: Form, n: usize) -> bool
    requires { (n ≡ item_count form msg.now) × ((n ≤ 510) × (length_good form msg.now ≡ true)) }
    ensures { result ≡ (mark_good (mark_in form msg.now) && (items_good form msg.now && cond form.round (round_good form msg.now) (odd_good form msg.now))) }
{
    let mark = field::byte(msg, venueform::clear_at(form));
    if !MARKS.contains(&mark) || !are_items_good(msg, form, n) {
        return false;
    }
    if form.round {
        return is_round_good(msg, form);
    }
    is_odd_good(msg, form, n)
}

// Q5.
fn are_items_good(msg: &[u8], form: Form, n: usize) -> bool
    requires { (n ≡ item_count form msg.now) × ((n ≤ 510) × (length_good form msg.now ≡ true)) }
    ensures { result ≡ items_good form msg.now }
{
    // i is the number of an appendage: where it stands follows from it
    for i in 0..n {
        let at = venueform::item_at(form, i);
        if PRICE_MOST < venueform::price(msg, at, form) {
            return false;
        }
    }
    true
}

// Q6.
#[tactic(auto, unfolding(crate::specs::Rules::odd_good))]
fn is_odd_good(msg: &[u8], form: Form, n: usize) -> bool
    requires { n ≡ item_count form msg.now }
    ensures { result ≡ odd_good form msg.now }
{
    0 < n || field::byte(msg, venueform::clear_at(form)) != b' '
}

// R1 to R9.
#[tactic(auto, unfolding(crate::specs::Rules::round_good))]
fn is_round_good(msg: &[u8], form: Form) -> bool
    requires { (length_good form msg.now ≡ true) × (form.round ≡ true) }
    ensures { result ≡ round_good form msg.now }
{
    let at = venueform::bid_at(form);
    let bid = venueform::price(msg, at, form);
    let offer = venueform::price(msg, at + venueform::side_len(form), form);
    let market = if form.long {
        field::byte(msg, Venue::MARKET)
    } else {
        b' '
    };
    bid <= PRICE_MOST
        && offer <= PRICE_MOST
        && is_market_good(market, bid, offer)
        && (!form.long || is_own_good(msg))
}

// R6.
#[tactic(auto, unfolding(crate::specs::Rules::market_good))]
fn is_market_good(market: u8, bid: u64, offer: u64) -> bool
    ensures { result ≡ market_good market bid offer }
{
    if bid == 0 || offer == 0 {
        return true;
    }
    match market {
        b'A' => offer < bid,
        b'B' => bid == offer,
        _ => bid < offer,
    }
}

// R1, R3 to R5, R7 to R9.
fn is_own_good(msg: &[u8]) -> bool
    requires { 81 ≤ length msg.now }
    ensures { result ≡ own_good msg.now }
{
    CONDITIONS.contains(&field::byte(msg, Venue::CONDITION)) && is_rest_own_good(msg)
}

// R3 to R5, R7 to R9: from the retail indicator on.
#[tactic(auto, using(lists::proofs::Iteration::member_any))]
fn is_rest_own_good(msg: &[u8]) -> bool
    requires { 81 ≤ length msg.now }
    ensures { result ≡ (member retail_codes (retail_in msg.now) && (member settlement_codes (settlement_in msg.now) && (member market_codes (market_in long_round msg.now) && (maker_formed msg.now && finra_good msg.now)))) }
{
    RETAIL.contains(&field::byte(msg, Venue::RETAIL))
        && SETTLEMENT.contains(&field::byte(msg, Venue::SETTLEMENT))
        && is_end_good(msg)
}

// R5, R7 to R9: from the market condition on.
#[tactic(auto, using(lists::proofs::Iteration::member_any), unfolding(field::specs::Field::part))]
fn is_end_good(msg: &[u8]) -> bool
    requires { 81 ≤ length msg.now }
    ensures { result ≡ (member market_codes (market_in long_round msg.now) && (maker_formed msg.now && finra_good msg.now)) }
{
    MARKET.contains(&field::byte(msg, Venue::MARKET))
        && text::is_padded(&msg[Venue::MAKER..Venue::INDICATOR], 33, 126)
        && is_finra_good(msg)
}

// R8, R9.
#[tactic(auto, using(lists::proofs::Iteration::member_any), unfolding(crate::specs::Rules::finra_good))]
fn is_finra_good(msg: &[u8]) -> bool
    requires { 81 ≤ length msg.now }
    ensures { result ≡ finra_good msg.now }
{
    let indicator = field::byte(msg, Venue::INDICATOR);
    if field::byte(msg, Venue::PARTICIPANT) == b'D' {
        return INDICATORS.contains(&indicator)
            && field::get32(msg, Venue::SECOND_NANOS) < NANOS_IN_SECOND;
    }
    indicator == b' ' && field::get64(msg, Venue::SECOND_TIME) == 0
}

// ---- 79

/// Check 79.
#[tactic(auto, unfolding(crate::specs::Rules::message_placed))]
pub fn is_message_placed(msg: &[u8]) -> bool
    ensures { result ≡ message_placed msg.now }
{
    let Some(form) = venueform::layout_of(msg) else {
        return false;
    };
    is_quote_placed(msg, form)
}

#[tactic(auto, unfolding(crate::specs::Rules::quote_placed))]
fn is_quote_placed(msg: &[u8], form: Form) -> bool
    ensures { result ≡ quote_placed form msg.now }
{
    let participant = field::byte(msg, Venue::PARTICIPANT);
    text::is_letter(participant)
        && participant != b'D'
        && is_condition_held(msg, form)
        && Block::HEADER + 2 + our_len(msg, form) <= Block::LONGEST
}

#[tactic(auto, unfolding(lists::specs::Lists::member))]
fn is_condition_held(msg: &[u8], form: Form) -> bool
    ensures { result ≡ condition_held form msg.now }
{
    !form.round || !form.long || message::is_round_condition(field::byte(msg, Venue::CONDITION))
}

/// The length of a quote in our form.
pub fn our_len(msg: &[u8], form: Form) -> usize
    ensures { (result ≡ our_length form msg.now) × (result ≤ 6180) }
{
    let items = if form.round {
        Ours::ROUND_LOT_ITEMS
    } else {
        Ours::ODD_LOT_ITEMS
    };
    items + Item::LEN * venueform::item_count(msg, form)
}
