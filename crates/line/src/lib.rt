// A block on its line: the checks before its messages are worked, and the line's record after it.
#![tactic(auto)]

ghost use Rattle.std.specs.Prelude.{◌≡◌, cond, eqb, ◌≤◌, ◌<◌, length, Ok, Some, None};
ghost use Rattle.block.specs.Block.{checked};
ghost use Rattle.allowance.specs.Allowance.{is_used_up};
ghost use Rattle.opening.specs.Opening.{allowance_on};
ghost use Rattle.opening.specs.Layout.{line_count, opening_length};
ghost use Rattle.line.specs.Line.{block_number, settled};
ghost use Rattle.line.specs.code.Gate.{gate_by, gate_of, gate_told};

use block::{Arrival, Block};
use numbers::Refusal;
use opening::{Book, Line};

/// A block that is taken: its number, 0 or 70, the gap, the count of messages, the line's record after it, and whether it is free (C I, C T,
/// C 5).
#[derive(Clone, Copy)]
pub struct Taken {
    // 0 and 70 are no refusals
    pub number: u8,
    pub gap: u32,
    pub count: usize,
    pub next: Line,
    pub free: bool,
}

/// A block that is refused: why, and the line as it stands; none where no line is known yet (1, 9, 21).
#[derive(Clone, Copy)]
pub struct Stopped {
    pub refusal: Refusal,
    pub line: Option<Line>,
}

impl Stopped {
    fn bare(refusal: Refusal) -> Stopped
        ensures { result ≡ record { refusal = refusal; line = None } }
    {
        Stopped {
            refusal,
            line: None,
        }
    }

    fn on(line: Line, refusal: Refusal) -> Stopped
        ensures { result ≡ record { refusal = refusal; line = Some line } }
    {
        Stopped {
            refusal,
            line: Some(line),
        }
    }
}

/// The checks of a block call, in their order: 1, 9, 21, those of the block, 20, 35, 86.
pub fn judge(book: &[u8], line: u32, block: &[u8], room: usize) -> Result<Taken, Stopped>
    ensures { gate_told result ≡ gate_of book.now line block.now room }
{
    if !opening::is_sound(book) {
        return Err(Stopped::bare(Refusal::NoBook));
    }
    if room < Block::ANSWER_LEN {
        return Err(Stopped::bare(Refusal::BufferShort));
    }
    let old = opening::line_state(book, line).ok_or(Stopped::bare(Refusal::LineNotOpen))?;
    let checked = block::check_block(block);
    // a match: what a closure of `map_err` gives has no name that the proof can use
    match checked {
        Err(refusal) => Err(Stopped::on(old, refusal)),
        Ok(c) => admit(book, line, old, field::get8(book, Book::DAY) == 1, block, c),
    }
}

// Checks 20, 35 and 86 of a block that passed its own, and the line's record after it.
fn admit(
    book: &[u8],
    line: u32,
    old: Line,
    day: bool,
    block: &[u8],
    c: usize,
) -> Result<Taken, Stopped>
    requires { (checked block.now ≡ Ok c) × ((opening_length ≤ length book.now) × (line < line_count)) }
    ensures { gate_told result ≡ gate_by old (block_number old day (is_used_up (allowance_on book.now) line) block.now) block.now }
{
    if block::is_idle(block, c) {
        return Ok(Taken {
            number: 0,
            gap: 0,
            count: c,
            next: old,
            free: true,
        });
    }
    if !day {
        return Err(Stopped::on(old, Refusal::BlockWhileClosed));
    }
    let sequence = block::sequence(block);
    let arrival = block::arrive(sequence, old.expected, c as u32);
    let Some(Arrival { gap, next: _ }) = arrival else {
        return Err(Stopped::on(old, Refusal::Duplicate));
    };
    if opening::is_used_up(book, line) {
        return Err(Stopped::on(old, Refusal::UsedUp));
    }
    Ok(Taken {
        number: warning(gap),
        gap,
        count: c,
        next: opening::advance(old, sequence, c as u32),
        free: false,
    })
}

// 70 for a gap.
fn warning(gap: u32) -> u8
    ensures { result ≡ cond (eqb gap 0) 0 70 }
{
    if gap == 0 {
        return 0;
    }
    70
}

/// Writes the line's record after a taken block, and charges the block to its line unless it is free.
pub fn settle(book: &mut [u8], line: u32, next: Line, free: bool)
    requires { (opening_length ≤ length book.old) × (line < line_count) }
    ensures { book.new ≡ settled line next free book.old }
{
    opening::put_line(book, line, next);
    if free {
        return;
    }
    opening::charge(book, line);
}
