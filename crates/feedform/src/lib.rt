// A snapshot's messages and block headers, written (document 02, T-12). It knows no book: symbol, entries and quotes are handed to it.
#![tactic(auto)]

ghost use Rattle.std.specs.Prelude.{◌≡◌, ◌+◌, ◌*◌, ◌%◌, ◌≤◌, length, replicate};
ghost use Rattle.field.specs.Field.{splice, be_bytes};
ghost use Rattle.lists.specs.Lists.{sum};
ghost use Rattle.text.specs.Form.{symbol_length};
ghost use Rattle.entries.specs.Publication.{entry_length};
ghost use Rattle.snapshot.specs.Snapshot.{shown_of, priced_of, both_in};
ghost use Rattle.snapshot.specs.Feed.{opened, national_side, consolidated, priced_bytes, participant, finra_side, finra_message, feed_front, feed_header, feed_longest, opened_length, national_length, priced_length, finra_side_length, consolidated_length, participant_length, finra_length};

use quote::{Level, Quote};
use text::Symbol;

/// Lengths and places of the form.
#[derive(Clone, Copy)]
pub struct Feed {}

impl Feed {
    /// A block's header: version 1, size 2, sequence number 4, messages 1, delivery flag 1, unused 13, checksum 2.
    pub const HEADER: usize = 24;

    pub const LONGEST: usize = 1000;

    pub const CONSOLIDATED: usize = 102;

    pub const PARTICIPANT: usize = 62;

    pub const FINRA: usize = 68;

    const VERSION: u8 = 11;

    const CHECKSUM: usize = 22;
    // An entry of a publication: name 4, price 8, size 4.
    const ENTRY: usize = 16;
    // A message's header and symbol.
    const OPENED: usize = 5 + Symbol::LEN;
    // A side: in R C letter, condition, price, size, maker; in R P price, size; in R F condition, price, size, maker.
    const NATIONAL: usize = 18;

    const PRICED: usize = 12;

    const FINRA_SIDE: usize = 17;
    // Of R C: price bands and auction collar, bid, offer, what is behind.
    const BANDS: usize = Feed::OPENED + 1;

    const BANDS_LEN: usize = 41;

    const NATIONAL_BID: usize = Feed::BANDS + Feed::BANDS_LEN;

    const NATIONAL_OFFER: usize = Feed::NATIONAL_BID + Feed::NATIONAL;

    const MARKS: usize = Feed::NATIONAL_OFFER + Feed::NATIONAL;
    // Of R P: bid, offer, what is behind, indications, halt reason.
    const BID: usize = Feed::OPENED + 1;

    const OFFER: usize = Feed::BID + Feed::PRICED;

    const CONDITIONS: usize = Feed::OFFER + Feed::PRICED;

    const INDICATIONS: usize = Feed::CONDITIONS + 4;

    const HALT: usize = Feed::INDICATIONS + 16;
    // Of R F: offer, limit indicator, indications, halt reason.
    const FINRA_OFFER: usize = Feed::OPENED + Feed::FINRA_SIDE;

    const FINRA_LIMIT: usize = Feed::FINRA_OFFER + Feed::FINRA_SIDE;

    const FINRA_INDICATIONS: usize = Feed::FINRA_LIMIT + 1;

    const FINRA_HALT: usize = Feed::FINRA_INDICATIONS + 16;
}

// n times the same byte.
fn fill(output: &mut [u8], at: usize, n: usize, byte: u8)
    requires { at + n ≤ length output.old }
    ensures { output.new ≡ splice output.old at (replicate n byte) }
{
    output[at..at + n].fill(byte);
}

// A message's header and symbol.
fn open_message(output: &mut [u8], at: usize, len: u16, kind: u8, participant: u8, symbol: &[u8])
    requires { (at + opened_length ≤ length output.old) × (length symbol.now ≡ symbol_length) }
    ensures { output.new ≡ splice output.old at (opened len kind participant symbol.now) }
{
    field::put16(output, at, len);
    field::put8(output, at + 2, b'R');
    field::put8(output, at + 3, kind);
    field::put8(output, at + 4, participant);
    writer::copy(output, at + 5, symbol);
}

// A side of R C, from an entry of a publication.
fn put_national(output: &mut [u8], at: usize, entry: &[u8])
    requires { (at + national_length ≤ length output.old) × (length entry.now ≡ entry_length) }
    ensures { output.new ≡ splice output.old at (national_side entry.now) }
{
    writer::copy(output, at, &entry[0..2]);
    writer::copy(output, at + 2, &entry[4..16]);
    fill(output, at + 14, 4, b' ');
}

/// Writes R C, from the two national entries of a publication.
pub fn put_consolidated(output: &mut [u8], at: usize, symbol: &[u8], national: &[u8])
    requires { (at + consolidated_length ≤ length output.old) × ((length symbol.now ≡ symbol_length) × (length national.now ≡ 2 * entry_length)) }
    ensures { output.new ≡ splice output.old at (consolidated symbol.now (both_in national.now)) }
{
    open_message(output, at, Feed::CONSOLIDATED as u16, b'C', b'S', symbol);
    fill(output, at + Feed::OPENED, 1, b' ');
    fill(output, at + Feed::BANDS, Feed::BANDS_LEN, 0);
    put_national(output, at + Feed::NATIONAL_BID, &national[0..Feed::ENTRY]);
    put_national(
        output,
        at + Feed::NATIONAL_OFFER,
        &national[Feed::ENTRY..2 * Feed::ENTRY],
    );
    fill(output, at + Feed::MARKS, 8, b' ');
}

// A side of R P.
fn put_priced(output: &mut [u8], at: usize, level: Level)
    requires { at + priced_length ≤ length output.old }
    ensures { output.new ≡ splice output.old at (priced_bytes (priced_of level)) }
{
    field::put64(output, at, level.price);
    field::put32(output, at + 8, level.size);
}

/// Writes R P of a letter, from its latest quote.
pub fn put_participant(output: &mut [u8], at: usize, symbol: &[u8], letter: u8, quote: Quote)
    requires { (at + participant_length ≤ length output.old) × (length symbol.now ≡ symbol_length) }
    ensures { output.new ≡ splice output.old at (participant symbol.now (shown_of letter quote)) }
{
    open_message(output, at, Feed::PARTICIPANT as u16, b'P', letter, symbol);
    field::put8(output, at + Feed::OPENED, quote.condition);
    put_priced(output, at + Feed::BID, quote.bid);
    put_priced(output, at + Feed::OFFER, quote.offer);
    fill(output, at + Feed::CONDITIONS, 4, b' ');
    fill(output, at + Feed::INDICATIONS, 16, 0);
    fill(output, at + Feed::HALT, 1, b' ');
}

// A side of R F, from an entry of a publication.
fn put_finra_side(output: &mut [u8], at: usize, entry: &[u8])
    requires { (at + finra_side_length ≤ length output.old) × (length entry.now ≡ entry_length) }
    ensures { output.new ≡ splice output.old at (finra_side entry.now) }
{
    fill(output, at, 1, b' ');
    writer::copy(output, at + 1, &entry[4..16]);
    writer::copy(output, at + 13, &entry[0..4]);
}

/// Writes R F, from the two FINRA entries of a publication.
pub fn put_finra(output: &mut [u8], at: usize, symbol: &[u8], finra: &[u8])
    requires { (at + finra_length ≤ length output.old) × ((length symbol.now ≡ symbol_length) × (length finra.now ≡ 2 * entry_length)) }
    ensures { output.new ≡ splice output.old at (finra_message symbol.now (both_in finra.now)) }
{
    open_message(output, at, Feed::FINRA as u16, b'F', b'D', symbol);
    put_finra_side(output, at + Feed::OPENED, &finra[0..Feed::ENTRY]);
    put_finra_side(
        output,
        at + Feed::FINRA_OFFER,
        &finra[Feed::ENTRY..2 * Feed::ENTRY],
    );
    fill(output, at + Feed::FINRA_LIMIT, 1, b' ');
    fill(output, at + Feed::FINRA_INDICATIONS, 16, 0);
    fill(output, at + Feed::FINRA_HALT, 1, b' ');
}

/// Writes a block's header, its checksum 0.
pub fn put_front(output: &mut [u8], at: usize, size: u16, sequence: u32, count: u8, flag: u8)
    requires { at + feed_header ≤ length output.old }
    ensures { output.new ≡ splice output.old at (feed_front size sequence count flag 0) }
{
    field::put8(output, at, Feed::VERSION);
    field::put16(output, at + 1, size);
    field::put32(output, at + 3, sequence);
    field::put8(output, at + 7, count);
    field::put8(output, at + 8, flag);
    fill(output, at + 9, 15, 0);
}

/// Writes the checksum of a block that has 0 in its place.
pub fn seal(block: &mut [u8])
    requires { (feed_header ≤ length block.old) × (length block.old ≤ feed_longest) }
    ensures { block.new ≡ splice block.old 22 (be_bytes 2 (sum block.old % 65536)) }
{
    let sum = block::total(block);
    field::put16(block, Feed::CHECKSUM, (sum % 65536) as u16);
}
