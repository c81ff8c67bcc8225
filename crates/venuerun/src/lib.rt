// A venue's block written as a run of our blocks (document 02, T-11).
#![tactic(auto)]

ghost use Rattle.std.specs.Prelude.{◌≡◌, ◌+◌, ◌*◌, ◌<◌, ◌≤◌, true, map, length, if◌then◌else◌, nat_eq};
ghost use Rattle.std.specs.Result.{result_unwrap_or};
ghost use Rattle.numbers.specs.Numbers.{answered};
ghost use Rattle.field.specs.Field.{splice};
ghost use Rattle.lists.specs.Lists.{sum};
ghost use Rattle.block.specs.Block.{block_longest, offset_at};
ghost use Rattle.block.specs.Written.{joined, written};
ghost use Rattle.venue.specs.Venue.{venue_longest, venue_sequence, venue_from, venue_messages, venue_number};
ghost use Rattle.venuerun.specs.Run.{run_of, needed_of, needed_told, convert_number};
ghost use Rattle.venuerun.specs.code.Walk.{stands, lengths_from, converted_from, filled_with, fit_of};

use block::Block;
use numbers::Refusal;
use venue::Venues;

/// Tells how many bytes `convert` writes, or why the block is refused.
pub fn convert_len(block: &[u8]) -> Result<usize, Refusal>
    ensures { (answered result ≡ venue_number block.now) × (result_unwrap_or result 0 ≡ needed_told block.now) }
{
    venue::judge(block)?;
    Ok(needed(block))
}

/// Checks 78, 79 and 80 of a conversion into an output of `room` bytes; else the bytes of the run.
pub fn judge(block: &[u8], room: usize) -> Result<usize, Refusal>
    ensures { (answered result ≡ convert_number block.now room) × (result_unwrap_or result 0 ≡ (if nat_eq (convert_number block.now room) 0 then needed_of block.now else 0)) }
{
    let len = convert_len(block)?;
    if room < len {
        return Err(Refusal::ConvertShort);
    }
    Ok(len)
}

// The block that is being filled, and the bytes of those before it.
#[derive(Clone, Copy)]
struct Fill {
    used: usize,
    closed: usize,
}

impl Fill {
    const NONE: Fill = Fill {
        used: Block::HEADER,
        closed: 0,
    };

    fn with(self, n: usize) -> Fill
        requires { (self.used ≤ block_longest) × ((self.closed ≤ 1000000) × (n ≤ block_longest)) }
        ensures { result ≡ filled_with self n }
    {
        let used = self.used + 2 + n;
        if used <= Block::LONGEST {
            return Fill { used, ..self };
        }
        Fill {
            used: Block::HEADER + 2 + n,
            closed: self.closed + self.used,
        }
    }
}

// The bytes of the run.
fn needed(block: &[u8]) -> usize
    requires { venue_number block.now ≡ 0 }
    ensures { result ≡ needed_of block.now }
{
    let c = venue::count(block);
    let mut fill = Fill::NONE;
    // p walks beside i: a message's own length says where the next one starts, and an iterator of them would hold the same two.
    let mut p = Venues::FIRST;
    for i in 0..c {
        let e = venue::next(block, p);
        let n = venuequote::converted_len(&block[p..e]);
        fill = fill.with(n);
        p = e;
    }
    fill.closed + fill.used
}

// How many messages go into one block, its length, and where the next message starts.
#[derive(Clone, Copy)]
struct Fit {
    count: usize,
    len: usize,
    next: usize,
}

// The first block of `left` messages from `first` on.
fn fit_from(block: &[u8], first: usize, left: usize) -> Fit
    requires { stands block.now first left ≡ true }
    ensures { result ≡ fit_of block.now first left }
{
    // p beside i, as in `needed`; i is the answer.
    let mut p = first;
    let mut used = Block::HEADER;
    for i in 0..left {
        let e = venue::next(block, p);
        let n = venuequote::converted_len(&block[p..e]);
        let with = used + 2 + n;
        if Block::LONGEST < with {
            return Fit {
                count: i,
                len: used,
                next: p,
            };
        }
        used = with;
        p = e;
    }
    Fit {
        count: left,
        len: used,
        next: p,
    }
}

/// Writes a venue's block as a run of our blocks, which fills the output. `lots`: for each message its symbol's round lot, 0 if that is not listed.
pub fn write_run(output: &mut [u8], block: &[u8], lots: &[u8])
    requires { (venue_number block.now ≡ 0) × (length output.old ≡ needed_of block.now) }
    ensures { output.new ≡ joined (run_of (venue_sequence block.now) (converted_from lots.now 0 (venue_messages block.now))) }
{
    let c = venue::count(block);
    let mut sequence = field::get32(block, Venues::SEQUENCE);
    let mut p = Venues::FIRST;
    // A `while`: each turn takes as many messages as fit one block.
    let mut i = 0;
    let mut at = 0;
    while i < c {
        let f = fit_from(block, p, c - i);
        let k = f.count;
        let e = at + f.len;
        write_one(&mut output[at..e], block, p, lots, i, k, sequence);
        sequence = std::num::wrapping_add_u32(sequence, k as u32);
        at = e;
        p = f.next;
        i += k;
    }
}

// One block of the run, which fills the output: the k messages from p on, the first of them message i. No struct holds p, i and k: it would be made
// and taken apart for this one call.
fn write_one(
    output: &mut [u8],
    block: &[u8],
    p: usize,
    lots: &[u8],
    i: usize,
    k: usize,
    sequence: u32,
)
    requires { (stands block.now p k ≡ true) × ((i + k ≤ 255) × ((length output.old ≤ block_longest) × (offset_at k + sum (lengths_from block.now p k) ≡ length output.old))) }
    ensures { output.new ≡ written sequence (converted_from lots.now i (venue_from block.now p k)) }
{
    let mut lengths = [0u32; 26];
    put_messages(output, &mut lengths, block, p, lots, i, k);
    writer::frame(output, &lengths[0..k], sequence);
}

// The messages into their place behind the table, and their lengths.
fn put_messages(
    output: &mut [u8],
    lengths: &mut [u32],
    block: &[u8],
    first: usize,
    lots: &[u8],
    i: usize,
    k: usize,
)
    requires { (stands block.now first k ≡ true) × ((i + k ≤ 255) × ((k ≤ length lengths.old) × ((length output.old ≤ block_longest) × (offset_at k + sum (lengths_from block.now first k) ≡ length output.old)))) }
    ensures { (output.new ≡ splice output.old (offset_at k) (joined (converted_from lots.now i (venue_from block.now first k)))) × (lengths.new ≡ splice lengths.old 0 (lengths_from block.now first k)) }
{
    // p beside j, as in `needed`; j is a message's place in both `lots` and `lengths`.
    let mut p = first;
    let mut at = Block::HEADER + 2 * k;
    for j in 0..k {
        let e = venue::next(block, p);
        let n = venuequote::converted_len(&block[p..e]);
        let to = at + n;
        venuequote::put_message(&mut output[at..to], &block[p..e], field::byte(lots, i + j));
        lengths[j] = n as u32;
        at = to;
        p = e;
    }
}
