// A letter's slot and its keys: its quote and its odd-lot levels, read and written. A side whose key is not its own has no quote and no levels.
#![tactic(auto)]

ghost use Rattle.std.specs.Prelude.{◌≡◌, [], ◌∷◌, ◌+◌, ◌≤◌, eqb, length};
ghost use Rattle.field.specs.Field.{splice};
ghost use Rattle.field.specs.Low.{low};
ghost use Rattle.field.specs.Ascii as ascii;
ghost use Rattle.ranking.specs.Held.{or_none};
ghost use Rattle.quote.specs.Quote.{candidate_of, quote_length};
ghost use Rattle.keys.specs.Keys.{key_length, side_key, level_key};
ghost use Rattle.levels.specs.Levels.{side_levels};
ghost use Rattle.levels.specs.code.Cells.{cells_of, joined_levels};
ghost use Rattle.page.specs.Layout.{page_length, slot_at, quote_key_at, first_key_at, in_levels};
ghost use Rattle.page.specs.Page.{agreed, quotes_in, levels_for, with_key, with_quote};
ghost use Rattle.slots.specs.code.Slots.{first_in, with_cells};

use levels::Levels;
use page::Slot;
use quote::{Level, Quote};
use ranking::{Candidate, Side};

// A side of a letter's quote, if its key is its own.
fn agreed(page: &[u8], letter: usize, side: Side, condition: u8, level: Level) -> Level
    requires page_len { length page.now ≡ page_length }
    requires a_le_letter { (ascii.A ≤ letter) × (letter ≤ ascii.Z) }
    ensures { result ≡ agreed (eqb (low page.now (quote_key_at side letter) key_length) (side_key side condition level)) level }
{
    let key = field::low32(page, page::quote_key_at(side, letter));
    if key == keys::quote_key(side, condition, level) {
        return level;
    }
    Level::NONE
}

/// A letter's quote.
pub fn quote(page: &[u8], letter: usize) -> Quote
    requires page_len { length page.now ≡ page_length }
    requires a_le_letter { (ascii.A ≤ letter) × (letter ≤ ascii.Z) }
    ensures { result ≡ quotes_in page.now letter }
{
    let stored = Quote::get(page, page::slot_at(letter));
    let bid = agreed(page, letter, Side::Bid, stored.condition, stored.bid);
    let offer = agreed(page, letter, Side::Offer, stored.condition, stored.offer);
    Quote {
        condition: stored.condition,
        bid,
        offer,
    }
}

/// A side of a letter's quote under its letter, none if that side doesn't count.
pub fn quoted(page: &[u8], letter: usize, side: Side) -> Candidate
    requires page_len { length page.now ≡ page_length }
    requires a_le_letter { (ascii.A ≤ letter) × (letter ≤ ascii.Z) }
    ensures { result ≡ or_none (candidate_of side letter (quotes_in page.now letter)) }
{
    let at = page::slot_at(letter);
    let condition = field::get8(page, at);
    let level = Level::get(page, at + page::in_quote(side));
    let own = keys::quote_key(side, condition, level);
    if own == 0 {
        return Candidate::NONE;
    }
    let key = field::low32(page, page::quote_key_at(side, letter));
    if key == own {
        return Candidate {
            name: letter as u32,
            price: level.price,
            size: level.size,
            time: level.time,
            condition: condition as u32,
        };
    }
    Candidate::NONE
}

/// Writes a letter's quote.
pub fn put_quote(page: &mut [u8], letter: usize, quote: Quote)
    requires page_len { length page.old ≡ page_length }
    requires a_le_letter { (ascii.A ≤ letter) × (letter ≤ ascii.Z) }
    ensures { page.new ≡ with_quote letter quote page.old }
{
    let bid = keys::quote_key(Side::Bid, quote.condition, quote.bid);
    let offer = keys::quote_key(Side::Offer, quote.condition, quote.offer);
    quote.put(page, page::slot_at(letter));
    field::put_low32(page, page::quote_key_at(Side::Bid, letter), bid);
    field::put_low32(page, page::quote_key_at(Side::Offer, letter), offer);
}

/// A side of a letter's levels.
pub fn levels(page: &[u8], letter: usize, side: Side) -> Levels
    requires page_len { length page.now ≡ page_length }
    requires a_le_letter { (ascii.A ≤ letter) × (letter ≤ ascii.Z) }
    ensures { result.cells ≡ cells_of (side_levels side (levels_for page.now letter)) }
{
    let stored = Levels::read(
        page,
        page::slot_at(letter) + Slot::LEVELS + page::in_levels(side),
        side,
    );
    let cells = stored.cells;
    let key = field::low32(page, page::first_key_at(side, letter));
    if key == keys::level_key(side, cells[0]) {
        return stored;
    }
    Levels::EMPTY
}

/// The first of a side of a letter's levels under its letter, none if there is none.
pub fn first(page: &[u8], letter: usize, side: Side) -> Candidate
    requires page_len { length page.now ≡ page_length }
    requires a_le_letter { (ascii.A ≤ letter) × (letter ≤ ascii.Z) }
    ensures { result ≡ or_none (first_in letter (side_levels side (levels_for page.now letter))) }
{
    let level = Level::get(
        page,
        page::slot_at(letter) + Slot::LEVELS + page::in_levels(side),
    );
    let own = keys::level_key(side, level);
    if own == 0 {
        return Candidate::NONE;
    }
    let key = field::low32(page, page::first_key_at(side, letter));
    if key == own {
        return Candidate {
            name: letter as u32,
            price: level.price,
            size: level.size,
            time: level.time,
            condition: 0x20,
        };
    }
    Candidate::NONE
}

/// Writes all four cells of a side of a letter's levels.
pub fn put_side(page: &mut [u8], letter: usize, side: Side, levels: Levels)
    requires page_len { length page.old ≡ page_length }
    requires a_le_letter { (ascii.A ≤ letter) × (letter ≤ ascii.Z) }
    ensures { page.new ≡ with_cells side letter levels.cells page.old }
{
    let cells = levels.cells;
    let key = keys::level_key(side, cells[0]);
    levels.put(
        page,
        page::slot_at(letter) + Slot::LEVELS + page::in_levels(side),
    );
    field::put_low32(page, page::first_key_at(side, letter), key);
}
