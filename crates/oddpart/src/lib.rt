// What the odd part of a message asks: checks 60 to 63, which sides it touches, and a side's levels after its clear mark and its items (64).
#![tactic(auto)]

ghost use Rattle.std.specs.Prelude.{◌≡◌, ◌+◌, ◌*◌, ◌≤◌, length};
ghost use Rattle.field.specs.Ascii as ascii;
ghost use Rattle.levels.specs.Levels.{side_levels, clears, items_from, items_bad, odd_bad, odd_in, item_length};
ghost use Rattle.page.specs.Layout.{page_length};
ghost use Rattle.page.specs.Page.{levels_for};
ghost use Rattle.numbers.specs.Numbers.{coded};
ghost use Rattle.oddpart.specs.code.Part.{touched_by, start_of, with_part};

use levels::{Item, Levels, Rejected};
use numbers::Rejection;
use ranking::Side;

// B clears the bids, S the offers, X both.
fn is_cleared(side: Side, mark: u8) -> bool
    ensures { result ≡ clears mark side }
{
    match side {
        Side::Bid => matches!(mark, b'B' | b'X'),
        Side::Offer => matches!(mark, b'S' | b'X'),
    }
}

/// Whether a part touches a side: its mark clears it, or it has items of that side, n of them.
pub fn is_touched(side: Side, mark: u8, n: usize) -> bool
    ensures { result ≡ touched_by mark side n }
{
    is_cleared(side, mark) || n != 0
}

// The levels that a side's items meet: none if the mark clears them, and then they aren't read.
fn start(page: &[u8], letter: usize, side: Side, mark: u8) -> Levels
    requires page_len { length page.now ≡ page_length }
    requires a_le_letter { (ascii.A ≤ letter) × (letter ≤ ascii.Z) }
    ensures { result ≡ start_of mark side (side_levels side (levels_for page.now letter)) }
{
    if is_cleared(side, mark) {
        return Levels::EMPTY;
    }
    slots::levels(page, letter, side)
}

/// A side of a letter's levels after a part: the clear mark, then n items in order, the first being item `from`. A rejection has the levels before its item.
pub fn with_part(
    page: &[u8],
    letter: usize,
    side: Side,
    mark: u8,
    items: &[u8],
    from: usize,
    n: usize,
    time: u64,
) -> Result<Levels, Rejected>
    requires page_len { length page.now ≡ page_length }
    requires a_le_letter { (ascii.A ≤ letter) × (letter ≤ ascii.Z) }
    requires n_in_bounds { item_length * (from + n) ≤ length items.now }
    ensures { result ≡ with_part side mark time (items_from items.now from n) (side_levels side (levels_for page.now letter)) }
{
    let mut next = start(page, letter, side, mark);
    for i in 0..n {
        next = next.with_item(side, Item::get(items, from + i), time)?;
    }
    Ok(next)
}

// Checks 62 and 63, item by item.
fn judge_items(items: &[u8], n: usize, lot: u32) -> Result<(), Rejection>
    requires { item_length * n ≤ length items.now }
    ensures { coded result ≡ items_bad lot (items_from items.now 0 n) }
{
    for i in 0..n {
        let item = Item::get(items, i);
        if item.price == 0 {
            return Err(Rejection::ItemPrice);
        }
        if lot <= item.shares {
            return Err(Rejection::ItemShares);
        }
    }
    Ok(())
}

/// Checks 60 to 63, in their order. `items` holds the bids, then the offers.
pub fn judge_part(
    mark: u8,
    bids: usize,
    offers: usize,
    lot: u32,
    items: &[u8],
) -> Result<(), Rejection>
    requires { length items.now ≡ item_length * (bids + offers) }
    ensures { coded result ≡ odd_bad lot (odd_in mark bids offers 0 items.now) }
{
    if !matches!(mark, b' ' | b'B' | b'S' | b'X') {
        return Err(Rejection::ClearMark);
    }
    if 4 < bids || 4 < offers {
        return Err(Rejection::ItemCount);
    }
    judge_items(items, bids + offers, lot)
}
