// What a message does to the page of the symbol that it names.
#![tactic(auto)]

ghost use Rattle.std.specs.Prelude.{◌≡◌, true, ◌+◌, ◌*◌, ◌≤◌, length};
ghost use Rattle.field.specs.Field.{field};
ghost use Rattle.field.specs.Ascii as ascii;
ghost use Rattle.lists.specs.Lists.{upper};
ghost use Rattle.ranking.specs.declared.Side.TheVariants.{Bid, Offer};
ghost use Rattle.levels.specs.Levels.{idle_odd, items_from, item_length};
ghost use Rattle.numbers.specs.Numbers.{coded};
ghost use Rattle.message.specs.Message.{odd_with, items_length};
ghost use Rattle.entries.specs.Publication.{change_flags};
ghost use Rattle.page.specs.Page.{refreshed};
ghost use Rattle.update.specs.Parts.{finra_on, blank_page, new_head, emptied};
ghost use Rattle.update.specs.code.Update.{flagged, side_part, one_side, both_sides, odd_code_on, odd_taken, round_lot_on, odd_lot_on, maker_quote_on, trading_status_on};
ghost use Rattle.page.specs.Layout.{page_length, kept_entries};
ghost use Rattle.text.specs.Form.{symbol_length};

use message::OddPart;
use numbers::Rejection;
use page::{Cell, Page};
use quote::Quote;
use ranking::Side;

/// What a message gets: its code, and the flags of the entries that it changed.
#[derive(Clone, Copy)]
pub struct Effect {
    pub code: u8,
    pub flags: u8,
}

// ---- a page is written, then its entries are worked out

// Works the entries out, and answers with a code.
fn renewed(page: &mut [u8], code: u8) -> Effect
    requires { length page.old ≡ page_length }
    ensures { record { effect = result; page = page.new } ≡ flagged code page.old (refreshed page.old) }
{
    let flags = publication::renew(page);
    Effect { code, flags }
}

// One side of an odd part: its items are n, the first being item `from`. A rejected one is not written.
fn put_one(
    page: &mut [u8],
    letter: usize,
    side: Side,
    odd: OddPart,
    items: &[u8],
    from: usize,
    n: usize,
) -> Result<(), Rejection>
    requires page_len { length page.old ≡ page_length }
    requires a_le_letter { (ascii.A ≤ letter) × (letter ≤ ascii.Z) }
    requires n_in_bounds { item_length * (from + n) ≤ length items.now }
    ensures { record { code = coded result; page = page.new } ≡ one_side side letter (side_part side odd.mark odd.time letter (items_from items.now from n) page.old) page.old }
{
    let levels = oddpart::with_part(page, letter, side, odd.mark, items, from, n, odd.time)?;
    slots::put_side(page, letter, side, levels);
    Ok(())
}

// Both sides of an odd part. Both are worked out before one is written, so a rejection of either writes none.
fn put_both(page: &mut [u8], letter: usize, odd: OddPart, items: &[u8]) -> Result<(), Rejection>
    requires page_len { length page.old ≡ page_length }
    requires a_le_letter { (ascii.A ≤ letter) × (letter ≤ ascii.Z) }
    requires len { length items.now ≡ items_length odd }
    ensures { record { code = coded result; page = page.new } ≡ both_sides letter (side_part Bid odd.mark odd.time letter (items_from items.now 0 odd.bids) page.old) (side_part Offer odd.mark odd.time letter (items_from items.now odd.bids odd.offers) page.old) page.old }
{
    let bids = oddpart::with_part(
        page,
        letter,
        Side::Bid,
        odd.mark,
        items,
        0,
        odd.bids,
        odd.time,
    )?;
    let offers = oddpart::with_part(
        page,
        letter,
        Side::Offer,
        odd.mark,
        items,
        odd.bids,
        odd.offers,
        odd.time,
    )?;
    slots::put_side(page, letter, Side::Bid, bids);
    slots::put_side(page, letter, Side::Offer, offers);
    Ok(())
}

// An odd part on its letter's levels. A side that it doesn't touch is neither read nor written, and a rejected part writes nothing.
fn put_odd(page: &mut [u8], letter: u8, odd: OddPart, items: &[u8]) -> Result<(), Rejection>
    requires page_len { (length page.old ≡ page_length) × (upper letter ≡ true) }
    requires len { length items.now ≡ items_length odd }
    ensures { (coded result ≡ odd_code_on letter (odd_with odd items.now) page.old) × (page.new ≡ odd_taken letter (odd_with odd items.now) page.old) }
{
    let lot = field::get8(page, Page::LOT) as u32;
    oddpart::judge_part(odd.mark, odd.bids, odd.offers, lot, items)?;
    let bids = oddpart::is_touched(Side::Bid, odd.mark, odd.bids);
    let offers = oddpart::is_touched(Side::Offer, odd.mark, odd.offers);
    let letter = letter as usize;
    match (bids, offers) {
        (true, true) => put_both(page, letter, odd, items),
        (true, false) => put_one(page, letter, Side::Bid, odd, items, 0, odd.bids),
        (false, true) => put_one(page, letter, Side::Offer, odd, items, odd.bids, odd.offers),
        (false, false) => Ok(()),
    }
}

// Whether an odd part asks for nothing. Most of a Q K do, so this is asked first.
fn is_idle(odd: OddPart, items: &[u8]) -> bool
    requires { length items.now ≡ items_length odd }
    ensures { result ≡ idle_odd (odd_with odd items.now) }
{
    odd.mark == b' ' && items.is_empty()
}

/// A Q K on the page of its symbol: its round part, then its odd part, whose items are lent. A refused odd part does nothing, and the round part stays.
pub fn round_lot(
    page: &mut [u8],
    letter: u8,
    fault: u8,
    quote: Quote,
    odd: OddPart,
    items: &[u8],
) -> Effect
    requires page_len { (length page.old ≡ page_length) × (upper letter ≡ true) }
    requires len { length items.now ≡ items_length odd }
    ensures { record { effect = result; page = page.new } ≡ round_lot_on letter fault quote (odd_with odd items.now) page.old }
{
    if fault != 0 {
        return Effect {
            code: fault,
            flags: 0,
        };
    }
    let standing = slots::quote(page, letter as usize);
    slots::put_quote(page, letter as usize, quote.over(standing));
    if is_idle(odd, items) {
        return renewed(page, 0);
    }
    match put_odd(page, letter, odd, items) {
        Ok(()) => renewed(page, 0),
        Err(rejection) => renewed(page, rejection.code()),
    }
}

/// A Q M or Q T on the page of its symbol. A refused odd part does nothing.
pub fn odd_lot(page: &mut [u8], letter: u8, odd: OddPart, items: &[u8]) -> Effect
    requires page_len { (length page.old ≡ page_length) × (upper letter ≡ true) }
    requires len { length items.now ≡ items_length odd }
    ensures { record { effect = result; page = page.new } ≡ odd_lot_on letter (odd_with odd items.now) page.old }
{
    match put_odd(page, letter, odd, items) {
        Ok(()) => renewed(page, 0), // taken whole
        Err(rejection) => Effect {
            code: rejection.code(),
            flags: 0,
        },
    }
}

/// A Q U on the page of its symbol.
pub fn maker_quote(page: &mut [u8], fault: u8, name: u32, quote: Quote) -> Effect
    requires { length page.old ≡ page_length }
    ensures { record { effect = result; page = page.new } ≡ maker_quote_on fault name quote page.old }
{
    if fault != 0 {
        return Effect {
            code: fault,
            flags: 0,
        };
    }
    let known = makers::maker_place(page, name);
    if let Some(k) = known {
        makers::put_cell_over(page, k, name, quote);
        return renewed(page, 0);
    }
    if makers::is_empty(quote) {
        return renewed(page, 0);
    }
    let free = makers::free_place(page);
    let Some(k) = free else {
        return Effect { code: 49, flags: 0 };
    };
    makers::put_cell(page, k, name, quote);
    renewed(page, 0)
}

/// A T S on the page of its symbol: 76 on another line than its primary letter's, 77 for another status than H and T, else the status is stored.
pub fn trading_status(page: &mut [u8], letter: u8, status: u8) -> Effect
    requires { length page.old ≡ page_length }
    ensures { record { effect = result; page = page.new } ≡ trading_status_on letter status page.old }
{
    if field::get8(page, Page::PRIMARY) != letter {
        return Effect { code: 76, flags: 0 };
    }
    if message::is_status(status) {
        field::put8(page, Page::STATUS, status);
        return renewed(page, 0);
    }
    Effect { code: 77, flags: 0 }
}

/// FINRA Close (L) or Open (R) on one page: every standing maker quote gets the condition. Gives the flags of the entries that changed.
pub fn finra(page: &mut [u8], condition: u8) -> u8
    requires { length page.old ≡ page_length }
    ensures { (result ≡ change_flags (kept_entries page.old) (kept_entries (finra_on condition page.old))) × (page.new ≡ finra_on condition page.old) }
{
    makers::mark_cells(page, condition);
    publication::renew(page)
}

/// Empties a page: no quotes, six entries of none, no halt. Symbol, round lot, primary letter and hints stay.
pub fn empty(page: &mut [u8])
    requires { length page.old ≡ page_length }
    ensures { page.new ≡ emptied page.old }
{
    publication::put_none(page);
    makers::clear(page, Page::SLOTS, Page::LEN);
}

/// Lists a symbol on a page: its 11 bytes, its round lot and its primary letter, no hints, no quotes and six entries of none, trading.
pub fn list(page: &mut [u8], symbol: &[u8], lot: u8, primary: u8)
    requires { (length page.old ≡ page_length) × (length symbol.now ≡ symbol_length) }
    ensures { page.new ≡ blank_page (new_head symbol.now lot primary) }
{
    field::put64(page, Page::SYMBOL, field::get64(symbol, 0));
    field::put16(page, Page::SYMBOL + 8, field::get16(symbol, 8));
    field::put8(page, Page::SYMBOL + 10, field::get8(symbol, 10));
    field::put8(page, Page::LOT, lot);
    field::put8(page, Page::PRIMARY, primary);
    makers::clear(page, Page::HINTS, Page::HEAD);
    empty(page);
}
