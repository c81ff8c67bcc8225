// Is a price protected (document 02, T-06)? The search down a page's national candidates.
#![tactic(auto)]

ghost use Rattle.std.specs.Prelude.{◌≡◌, ◌+◌, ◌≤◌, ◌<◌, length};
ghost use Rattle.field.specs.Field.{part};
ghost use Rattle.field.specs.Ascii as ascii;
ghost use Rattle.quote.specs.Quote.{level_in, candidate_of, level_length};
ghost use Rattle.page.specs.Layout.{page_length, maker_count};
ghost use Rattle.page.specs.Page.{quotes_in};
ghost use Rattle.protection.specs.Protection.{reaches, answers_yes, page_candidates, page_trading, protection};
ghost use Rattle.protection.specs.code.Search.{level_yes, maker_yes, letter_yes};

use page::{Cell, Letter, Page};
use quote::Level;
use ranking::Side;

/// Whether a price is protected, and how many letters were looked at: the position of the letter that answered yes, or 26.
#[derive(Clone, Copy, Debug, PartialEq, Eq)]
pub struct Protection {
    pub yes: bool,
    pub looked: u8,
}

impl Protection {
    /// No letter of all 26.
    pub const NO: Protection = Protection {
        yes: false,
        looked: Letter::COUNT as u8,
    };
}

// Whether a shown price is as good as the one asked for: a bid at or above it, an offer at or below it.
fn reaches(side: Side, price: u64, shown: u64) -> bool
    ensures { result ≡ reaches side price shown }
{
    match side {
        Side::Bid => price <= shown,
        Side::Offer => shown <= price,
    }
}

// Whether the level at `at` reaches the price and has a price and a size. The price is read first: most levels go no further.
fn level_yes(page: &[u8], at: usize, side: Side, price: u64) -> bool
    requires { at + level_length ≤ length page.now }
    ensures { result ≡ level_yes side price (level_in (part page.now at level_length)) }
{
    // price 8, size 4, time 8
    let shown = field::low64(page, at);
    if shown == 0 || !reaches(side, price, shown) {
        return false;
    }
    0 < field::low32(page, at + 8)
}

// Whether the side of a letter's quote counts and reaches the price. Its key is read last.
fn quote_yes(page: &[u8], letter: usize, side: Side, price: u64) -> bool
    requires page_len { length page.now ≡ page_length }
    requires a_le_letter { (ascii.A ≤ letter) × (letter ≤ ascii.Z) }
    ensures { result ≡ answers_yes side price (candidate_of side 0 (quotes_in page.now letter)) }
{
    let at = page::slot_at(letter);
    let level = at + page::in_quote(side);
    if level_yes(page, level, side, price) {
        let condition = field::get8(page, at);
        if quote::admits(side, condition) {
            let own = keys::quote_key(side, condition, Level::get(page, level));
            return field::low32(page, page::quote_key_at(side, letter)) == own;
        }
    }
    false
}

// Whether a maker's side counts and reaches the price. Of the conditions of makers only R counts.
fn maker_yes(page: &[u8], k: usize, side: Side, price: u64) -> bool
    requires page_len { length page.now ≡ page_length }
    requires k_lt_maker_count { k < maker_count }
    ensures { result ≡ maker_yes page.now side price k }
{
    let quote = page::cell_at(k) + Cell::QUOTE;
    level_yes(page, quote + page::in_quote(side), side, price) && field::get8(page, quote) == b'R'
}

// D answers by its FINRA best, which reaches the price exactly if one of the makers does.
fn d_yes(page: &[u8], side: Side, price: u64) -> bool
    requires { length page.now ≡ page_length }
    ensures { result ≡ letter_yes page.now side price ascii.D }
{
    (0..Page::MAKERS).any(|k| maker_yes(page, k, side, price))
}

// Whether a letter answers yes: D by its FINRA best, S, the processor, never, any other by its quote.
fn letter_yes(page: &[u8], letter: usize, side: Side, price: u64) -> bool
    requires page_len { length page.now ≡ page_length }
    requires a_le_letter { (ascii.A ≤ letter) × (letter ≤ ascii.Z) }
    ensures { result ≡ letter_yes page.now side price letter }
{
    if letter == Letter::D {
        return d_yes(page, side, price);
    }
    if letter == Letter::S {
        return false;
    }
    quote_yes(page, letter, side, price)
}

// Looks at the letters of a page from A and stops at the first whose national candidate bids the price or more, or offers it or less.
fn search(page: &[u8], side: Side, price: u64) -> Protection
    requires { length page.now ≡ page_length }
    ensures { result ≡ protection side price (page_candidates page.now side) }
{
    // which letter is found is the answer
    for letter in Letter::A..Letter::Z + 1 {
        if letter_yes(page, letter, side, price) {
            return Protection {
                yes: true,
                looked: (letter + 1 - Letter::A) as u8,
            };
        }
    }
    Protection::NO
}

/// Whether a page's national candidates protect a price: no, with 26 letters looked at, while its symbol is halted (T-10), else by the search.
pub fn look(page: &[u8], side: Side, price: u64) -> Protection
    requires { length page.now ≡ page_length }
    ensures { result ≡ protection side price (page_trading page.now side) }
{
    if page::is_halted(page) {
        return Protection::NO;
    }
    search(page, side, price)
}
