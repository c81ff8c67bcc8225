// A symbol's page: where its symbol, entries, quotes, levels and makers stand.
#![tactic(auto)]

ghost use Rattle.std.specs.Prelude.{◌≡◌, [], ◌∷◌, ◌≤◌, ◌<◌, length};
ghost use Rattle.lists.specs.Lists.{member};
ghost use Rattle.page.specs.Layout.{in_quote, in_levels, slot_at, cell_at, quote_keys_at, first_keys_at, first_key_at, quote_key_at, maker_count, page_length};
ghost use Rattle.page.specs.Page.{halted_in};
ghost use Rattle.field.specs.Ascii as ascii;
ghost use Rattle.quote.specs.Quote.{offer_at};
ghost use Rattle.levels.specs.Levels.{side_length};

use keys::Keys;
use levels::Levels;
use quote::Quote;
use ranking::Side;
use text::{Maker, Symbol};

/// The bytes of a page: symbol, round lot, primary letter and hints, six entries, a slot for each letter, the maker cells, the trading status, the keys.
/// specs/Layout.antt says the same.
#[derive(Clone, Copy)]
pub struct Page {}

impl Page {
    pub const SYMBOL: usize = 0;

    pub const LOT: usize = Page::SYMBOL + Symbol::LEN;

    pub const PRIMARY: usize = Page::LOT + 1;
    /// Where pages are, one byte for each bucket of symbols. Only those of a book's first page are used.
    pub const HINTS: usize = Page::PRIMARY + 1;

    pub const HINT_COUNT: usize = 251;
    /// Symbol, round lot, primary letter and hints: what Start of Day keeps.
    pub const HEAD: usize = Page::HINTS + Page::HINT_COUNT;

    pub const ENTRIES: usize = Page::HEAD;

    pub const SLOTS: usize = Page::ENTRIES + Page::ENTRIES_LEN;

    pub const CELLS: usize = Page::SLOTS + Letter::COUNT * Slot::LEN;

    /// H while the symbol is halted.
    pub const STATUS: usize = Page::CELLS + Page::MAKERS * Cell::LEN;

    /// Four rows of keys: the letters' bids, their offers, their best odd bids, their best odd offers.
    pub const KEYS: usize = Page::STATUS + 1;

    pub const KEY_ROW: usize = Letter::COUNT * Keys::LEN;

    pub const LEN: usize = Page::KEYS + 4 * Page::KEY_ROW;
    /// The six entries of a publication: name 4, price 8, size 4.
    pub const ENTRY_LEN: usize = 16;

    pub const ENTRIES_LEN: usize = 6 * Page::ENTRY_LEN;
    /// How many maker cells a page has.
    pub const MAKERS: usize = 16;
}

/// The bytes of a letter's slot: its round quote, then its odd-lot levels, four bids and four offers.
#[derive(Clone, Copy)]
pub struct Slot {}

impl Slot {
    pub const QUOTE: usize = 0;

    pub const LEVELS: usize = Slot::QUOTE + Quote::LEN;

    pub const LEN: usize = Slot::LEVELS + 2 * Levels::LEN;
}

/// The bytes of a maker cell: the maker's name, then its quote. A cell stands if the quote's condition is L or R, else it is free.
#[derive(Clone, Copy)]
pub struct Cell {}

impl Cell {
    pub const NAME: usize = 0;

    pub const QUOTE: usize = Cell::NAME + Maker::LEN;

    pub const LEN: usize = Cell::QUOTE + Quote::LEN;
}

/// Letters, as numbers from A on.
#[derive(Clone, Copy)]
pub struct Letter {}

impl Letter {
    pub const A: usize = 65;
    /// FINRA.
    pub const D: usize = 68;
    /// The processor, which has no quotes.
    pub const S: usize = 83;

    pub const Z: usize = 90;

    pub const COUNT: usize = 26;
}

/// Where the slot of a letter starts.
pub fn slot_at(letter: usize) -> usize
    requires { (ascii.A ≤ letter) × (letter ≤ ascii.Z) }
    ensures { result ≡ slot_at letter }
{
    Page::SLOTS + (letter - Letter::A) * Slot::LEN
}

/// Where maker cell k starts.
pub fn cell_at(k: usize) -> usize
    requires { k < maker_count }
    ensures { result ≡ cell_at k }
{
    Page::CELLS + k * Cell::LEN
}

/// Whether a maker cell with this condition stands.
pub fn stands(condition: u8) -> bool
    ensures { result ≡ member (ascii.L ∷ ascii.R ∷ []) condition }
{
    matches!(condition, b'L' | b'R')
}

/// Whether the symbol of a page is halted (T-10).
pub fn is_halted(page: &[u8]) -> bool
    requires { length page.now ≡ page_length }
    ensures { result ≡ halted_in page.now }
{
    field::get8(page, Page::STATUS) == b'H'
}

/// Where a side's level stands in a quote, behind the condition.
pub fn in_quote(side: Side) -> usize
    ensures { (result ≡ in_quote side) × (result ≤ offer_at) }
{
    match side {
        Side::Bid => Quote::BID,
        Side::Offer => Quote::OFFER,
    }
}

/// Where a side's first level stands among the levels of a letter.
pub fn in_levels(side: Side) -> usize
    ensures { (result ≡ in_levels side) × (result ≤ side_length) }
{
    match side {
        Side::Bid => 0,
        Side::Offer => Levels::LEN,
    }
}

/// Where the row of keys of the letters' quotes stands.
pub fn quote_keys(side: Side) -> usize
    ensures { (result ≡ quote_keys_at side) × (result ≤ page_length) }
{
    match side {
        Side::Bid => Page::KEYS,
        Side::Offer => Page::KEYS + Page::KEY_ROW,
    }
}

/// Where the row of keys of the letters' first levels stands.
pub fn first_keys(side: Side) -> usize
    ensures { (result ≡ first_keys_at side) × (result ≤ page_length) }
{
    match side {
        Side::Bid => Page::KEYS + 2 * Page::KEY_ROW,
        Side::Offer => Page::KEYS + 3 * Page::KEY_ROW,
    }
}

/// Where the key of a side of a letter's quote stands.
pub fn quote_key_at(side: Side, letter: usize) -> usize
    requires { (ascii.A ≤ letter) × (letter ≤ ascii.Z) }
    ensures { result ≡ quote_key_at side letter }
{
    quote_keys(side) + Keys::LEN * (letter - Letter::A)
}

/// Where the key of a letter's first level stands.
pub fn first_key_at(side: Side, letter: usize) -> usize
    requires { (ascii.A ≤ letter) × (letter ≤ ascii.Z) }
    ensures { result ≡ first_key_at side letter }
{
    first_keys(side) + Keys::LEN * (letter - Letter::A)
}
