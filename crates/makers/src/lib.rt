// The maker cells of a page: search, writing, FINRA Close and Open.
#![tactic(auto)]

ghost use Rattle.std.specs.Prelude.{◌≡◌, ◌+◌, ◌-◌, ◌≤◌, ◌<◌, length, replicate};
ghost use Rattle.field.specs.Field.{part, splice};
ghost use Rattle.lists.specs.Lists.{is_some};
ghost use Rattle.text.specs.Form.{name_length};
ghost use Rattle.quote.specs.Quote.{empty_side, empty_quote, quote_over, quote_in, quote_length};
ghost use Rattle.page.specs.Layout.{cell_length, maker_count, page_length, cell_at};
ghost use Rattle.makers.specs.Makers.{named, cell_of, cell_for, maker_place, free_place, mark_cell, mark_cells};

use page::{Cell, Page};
use quote::{Level, Quote};

// Whether cell k stands.
fn is_standing(page: &[u8], k: usize) -> bool
    requires { (length page.now ≡ page_length) × (k < maker_count) }
    ensures { result ≡ is_some (cell_of page.now k) }
{
    page::stands(field::get8(page, page::cell_at(k) + Cell::QUOTE))
}

// Whether cell k stands under a name.
fn is_named(page: &[u8], k: usize, name: u32) -> bool
    requires { (length page.now ≡ page_length) × (k < maker_count) }
    ensures { result ≡ named name (cell_of page.now k) }
{
    is_standing(page, k) && field::get32(page, page::cell_at(k)) == name
}

/// The first cell of a name.
pub fn maker_place(page: &[u8], name: u32) -> Option<usize>
    requires { length page.now ≡ page_length }
    ensures { result ≡ maker_place page.now name }
{
    for k in 0..Page::MAKERS {
        if is_named(page, k, name) {
            return Some(k);
        }
    }
    None
}

/// The first free cell.
pub fn free_place(page: &[u8]) -> Option<usize>
    requires { length page.now ≡ page_length }
    ensures { result ≡ free_place page.now }
{
    for k in 0..Page::MAKERS {
        if !is_standing(page, k) {
            return Some(k);
        }
    }
    None
}

/// Both sides 0 and 0.
pub fn is_empty(quote: Quote) -> bool
    ensures { result ≡ empty_quote quote }
{
    is_empty_side(quote.bid) && is_empty_side(quote.offer)
}

fn is_empty_side(l: Level) -> bool
    ensures { result ≡ empty_side l }
{
    l.price == 0 && l.size == 0
}

/// Writes a maker's quote into cell k; an empty one frees it.
pub fn put_cell(page: &mut [u8], k: usize, name: u32, quote: Quote)
    requires { (length page.old ≡ page_length) × (k < maker_count) }
    ensures { page.new ≡ splice page.old (cell_at k) (cell_for name quote) }
{
    let at = page::cell_at(k);
    if is_empty(quote) {
        clear(page, at, at + Cell::LEN);
        return;
    }
    field::put32(page, at, name);
    quote.put(page, at + Cell::QUOTE);
}

/// Writes a maker's quote into cell k over its quote that stands there: a resent side keeps its time. An empty one frees it.
pub fn put_cell_over(page: &mut [u8], k: usize, name: u32, quote: Quote)
    requires { (length page.old ≡ page_length) × (k < maker_count) }
    ensures { page.new ≡ splice page.old (cell_at k) (cell_for name (quote_over (quote_in (part page.old (cell_at k + name_length) quote_length)) quote)) }
{
    let standing = Quote::get(page, page::cell_at(k) + Cell::QUOTE);
    put_cell(page, k, name, quote.over(standing));
}

/// Writes zeros from `from` to `to`.
pub fn clear(s: &mut [u8], from: usize, to: usize)
    requires { (from ≤ to) × (to ≤ length s.old) }
    ensures { s.new ≡ splice s.old from (replicate (to - from) 0) }
{
    s[from..to].fill(0);
}

// Gives cell k the condition, if it stands.
fn mark_cell(page: &mut [u8], k: usize, condition: u8)
    requires { (length page.old ≡ page_length) × (k < maker_count) }
    ensures { page.new ≡ splice page.old (cell_at k) (mark_cell condition (part page.old (cell_at k) cell_length)) }
{
    if is_standing(page, k) {
        field::put8(page, page::cell_at(k) + Cell::QUOTE, condition);
    }
}

pub fn mark_cells(page: &mut [u8], condition: u8)
    requires { length page.old ≡ page_length }
    ensures { page.new ≡ mark_cells condition 0 maker_count page.old }
{
    for k in 0..Page::MAKERS {
        mark_cell(page, k, condition);
    }
}
