// A publication's 96 bytes: six entries as they stand in a page, and which of them changed.
#![tactic(auto)]

ghost use Rattle.std.specs.Prelude.{◌≡◌, cond, ◌+◌, ◌≤◌, length};
ghost use Rattle.field.specs.Field.{splice, be_bytes};
ghost use Rattle.entries.specs.Publication.{entry_bytes, reason_byte, national_name, finra_name, odd_name, publication, change_flags, no_entries, entry_length};
ghost use Rattle.page.specs.Page.{published_entries, refreshed};
ghost use Rattle.publication.specs.code.Entry.{priced, reason_of, as_entries, bytes_of, published_bytes, holds};
ghost use Rattle.page.specs.Layout.{page_length, kept_entries, entries_at};

use page::{Letter, Page};
use ranking::{Candidate, Lead};
use walk::BestEntries;

/// One published entry: its four bytes of name as one number, price and size.
#[derive(Clone, Copy)]
pub struct Entry {
    pub name: u32,
    pub price: u64,
    pub size: u32,
}

impl Entry {
    /// Bytes of an entry: name 4, price 8, size 4.
    pub const LEN: usize = Page::ENTRY_LEN;

    pub const PRICE: usize = 4;

    pub const SIZE: usize = 12;
    /// Four spaces and zeros.
    pub const NONE: Entry = Entry {
        name: 0x20202020,
        price: 0,
        size: 0,
    };
}

/// A published bid and offer.
#[derive(Clone, Copy)]
pub struct EntrySides {
    pub bid: Entry,
    pub offer: Entry,
}

impl EntrySides {
    pub const NONE: EntrySides = EntrySides {
        bid: Entry::NONE,
        offer: Entry::NONE,
    };
}

/// The six entries of a publication.
#[derive(Clone, Copy)]
pub struct Published {
    pub national: EntrySides,
    pub finra: EntrySides,
    pub odd: EntrySides,
}

impl Published {
    pub const NONE: Published = Published {
        national: EntrySides::NONE,
        finra: EntrySides::NONE,
        odd: EntrySides::NONE,
    };
}

// A candidate's entry under a name; none if there is none.
fn named(name: u32, c: Candidate) -> Entry
    ensures { bytes_of result ≡ entry_bytes (λ _. be_bytes 4 name) (priced c) }
{
    if c.price == 0 {
        return Entry::NONE;
    }
    Entry {
        name,
        price: c.price,
        size: c.size,
    }
}

// The byte for what put a leader ahead: price, size, time or letter; a space if there is no second.
fn reason_byte(decided: u32) -> u8
    ensures { result ≡ reason_byte (reason_of decided) }
{
    match decided {
        1 => b'P',
        2 => b'S',
        3 => b'T',
        4 => b'L',
        _ => b' ',
    }
}

// Letter, condition, what put it ahead, a space.
fn national_entry(lead: Lead) -> Entry
    ensures { bytes_of result ≡ entry_bytes (national_name (reason_of lead.decided)) (priced lead.best) }
{
    let c = lead.best;
    let reason = reason_byte(lead.decided);
    named(
        (c.name % 256) * 0x1000000 + (c.condition % 256) * 0x10000 + (reason as u32) * 0x100 + 0x20,
        c,
    )
}

// The maker's four bytes.
fn finra_entry(c: Candidate) -> Entry
    ensures { bytes_of result ≡ entry_bytes finra_name (priced c) }
{
    named(c.name, c)
}

// Letter, three spaces.
fn odd_entry(c: Candidate) -> Entry
    ensures { bytes_of result ≡ entry_bytes odd_name (priced c) }
{
    named((c.name % 256) * 0x1000000 + 0x202020, c)
}

// The six entries as they are published.
fn to_publish(e: BestEntries) -> Published
    ensures { published_bytes result ≡ publication (as_entries e) }
{
    let national = EntrySides {
        bid: national_entry(e.national.bid),
        offer: national_entry(e.national.offer),
    };
    let finra = EntrySides {
        bid: finra_entry(e.finra.bid),
        offer: finra_entry(e.finra.offer),
    };
    let odd = EntrySides {
        bid: odd_entry(e.odd.bid),
        offer: odd_entry(e.odd.offer),
    };
    Published {
        national,
        finra,
        odd,
    }
}

// Whether e stands at `at`.
fn stands(page: &[u8], at: usize, e: Entry) -> bool
    requires { at + entry_length ≤ length page.now }
    ensures { result ≡ holds page.now at e }
{
    field::get32(page, at) == e.name
        && field::get64(page, at + Entry::PRICE) == e.price
        && field::get32(page, at + Entry::SIZE) == e.size
}

// The flag of the entry at `at`: 0 if e stands there already, else `bit`.
fn flag(page: &[u8], at: usize, e: Entry, bit: u8) -> u8
    requires { at + entry_length ≤ length page.now }
    ensures { (result ≡ cond (holds page.now at e) 0 bit) × (result ≤ bit) }
{
    if stands(page, at, e) {
        return 0;
    }
    bit
}

// The flags of the entries that are not yet those of p.
fn flags(page: &[u8], p: Published) -> u8
    requires { length page.now ≡ page_length }
    ensures { result ≡ change_flags (kept_entries page.now) (published_bytes p) }
{
    let a = flag(page, Page::ENTRIES, p.national.bid, 1);
    let b = flag(page, Page::ENTRIES + Entry::LEN, p.national.offer, 2);
    let c = flag(page, Page::ENTRIES + 2 * Entry::LEN, p.finra.bid, 4);
    let d = flag(page, Page::ENTRIES + 3 * Entry::LEN, p.finra.offer, 8);
    let e = flag(page, Page::ENTRIES + 4 * Entry::LEN, p.odd.bid, 16);
    let f = flag(page, Page::ENTRIES + 5 * Entry::LEN, p.odd.offer, 32);
    a + b + c + d + e + f
}

fn put_entry(page: &mut [u8], at: usize, e: Entry)
    requires { at + entry_length ≤ length page.old }
    ensures { page.new ≡ splice page.old at (bytes_of e) }
{
    field::put32(page, at, e.name);
    field::put64(page, at + Entry::PRICE, e.price);
    field::put32(page, at + Entry::SIZE, e.size);
}

fn put_entries(page: &mut [u8], p: Published)
    requires { length page.old ≡ page_length }
    ensures { page.new ≡ splice page.old entries_at (published_bytes p) }
{
    put_entry(page, Page::ENTRIES, p.national.bid);
    put_entry(page, Page::ENTRIES + Entry::LEN, p.national.offer);
    put_entry(page, Page::ENTRIES + 2 * Entry::LEN, p.finra.bid);
    put_entry(page, Page::ENTRIES + 3 * Entry::LEN, p.finra.offer);
    put_entry(page, Page::ENTRIES + 4 * Entry::LEN, p.odd.bid);
    put_entry(page, Page::ENTRIES + 5 * Entry::LEN, p.odd.offer);
}

/// Works out a page's six entries, none while it is halted, writes them, and gives the flags of those that changed.
pub fn renew(page: &mut [u8]) -> u8
    requires { length page.old ≡ page_length }
    ensures { (result ≡ change_flags (kept_entries page.old) (publication (published_entries page.old))) × (page.new ≡ refreshed page.old) }
{
    let published = to_publish(walk::entries_behind(page, Letter::Z));
    let changed = flags(page, published);
    if changed == 0 {
        return 0; // they stand already
    }
    put_entries(page, published);
    changed
}

/// Writes six entries of none.
pub fn put_none(page: &mut [u8])
    requires { length page.old ≡ page_length }
    ensures { page.new ≡ splice page.old entries_at no_entries }
{
    put_entries(page, Published::NONE);
}
