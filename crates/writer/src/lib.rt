// A block written from its messages (document 02, T-01).
#![tactic(auto)]

ghost use Rattle.std.specs.Prelude.{◌≡◌, true, ◌+◌, ◌*◌, ◌≤◌, ◌<◌, length, drop, leb};
ghost use Rattle.field.specs.Field.{splice};
ghost use Rattle.std.specs.Result.{result_unwrap_or};
ghost use Rattle.lists.specs.Lists.{every, sum};
ghost use Rattle.numbers.specs.Numbers.{answered};
ghost use Rattle.block.specs.Block.{offset_at, block_longest, message_shortest, messages_most};
ghost use Rattle.block.specs.Written.{offsets, cut_by, lengths_good, any_control, control_mixed, write_number, written, written_out};

use block::Block;
use numbers::Refusal;

const SHORTEST: u32 = Block::MESSAGE_SHORTEST as u32;

/// Writes the block that carries these messages, laid end to end, under a sequence number, and tells its length. Bytes of the output behind
/// it stay.
pub fn write_block(
    messages: &[u8],
    lengths: &[u32],
    sequence: u32,
    output: &mut [u8],
) -> Result<usize, Refusal>
    ensures { record { number = answered result; length = result_unwrap_or result 0; output = output.new } ≡ written_out messages.now lengths.now sequence output.old }
{
    judge(messages, lengths, output.len())?;
    let start = Block::HEADER + 2 * lengths.len();
    let len = start + messages.len();
    copy(output, start, messages);
    frame(&mut output[0..len], lengths, sequence);
    Ok(len)
}

// Checks 71, 72, 73.
fn judge(messages: &[u8], lengths: &[u32], room: usize) -> Result<(), Refusal>
    ensures { answered result ≡ write_number lengths.now messages.now room }
{
    if !are_good(lengths, messages.len()) {
        return Err(Refusal::WriteMessages);
    }
    if is_control_mixed(messages, lengths) {
        return Err(Refusal::WriteControl);
    }
    if room < Block::HEADER + 2 * lengths.len() + messages.len() {
        return Err(Refusal::WriteShort);
    }
    Ok(())
}

// 71: how many, how long, that they add up, and that the block is not too long.
fn are_good(lengths: &[u32], n: usize) -> bool
    ensures { result ≡ lengths_good lengths.now n }
{
    let c = lengths.len();
    if c < 1 {
        return false;
    }
    if Block::MESSAGES < c {
        return false;
    }
    if are_long(lengths) {
        if total(lengths) != n {
            return false;
        }
        if Block::LONGEST < n {
            return false;
        }
        return Block::HEADER + 2 * c + n <= Block::LONGEST;
    }
    false
}

fn are_long(lengths: &[u32]) -> bool
    ensures { result ≡ every (leb message_shortest) lengths.now }
{
    lengths.iter().all(|&n| SHORTEST <= n)
}

// The sum of at most 45 lengths: it does not wrap.
fn total(lengths: &[u32]) -> usize
    requires { length lengths.now ≤ messages_most }
    ensures { result ≡ sum lengths.now }
{
    lengths.iter().map(|&n| n as usize).sum()
}

// 72: a message of category C among others.
fn is_control_mixed(messages: &[u8], lengths: &[u32]) -> bool
    requires { lengths_good lengths.now (length messages.now) ≡ true }
    ensures { result ≡ control_mixed (cut_by lengths.now messages.now) }
{
    if lengths.len() < 2 {
        return false;
    }
    is_any_control(messages, lengths)
}

fn is_any_control(messages: &[u8], lengths: &[u32]) -> bool
    requires { lengths_good lengths.now (length messages.now) ≡ true }
    ensures { result ≡ any_control (cut_by lengths.now messages.now) }
{
    let mut first: usize = 0;
    for &n in lengths {
        if messages[first] == b'C' {
            return true;
        }
        first = first + n as usize;
    }
    false
}

/// Writes bytes into their place.
pub fn copy(output: &mut [u8], at: usize, messages: &[u8])
    requires { at + length messages.now ≤ length output.old }
    ensures { output.new ≡ splice output.old at messages.now }
{
    for (i, &byte) in messages.iter().enumerate() {
        output[at + i] = byte;
    }
}

/// Puts header, table and checksum in front of messages of these lengths, which stand in their place.
pub fn frame(block: &mut [u8], lengths: &[u32], sequence: u32)
    requires { (length block.old ≤ block_longest) × ((length lengths.now ≤ messages_most) × (offset_at (length lengths.now) + sum lengths.now ≡ length block.old)) }
    ensures { block.new ≡ written sequence (cut_by lengths.now (drop (offset_at (length lengths.now)) block.old)) }
{
    let len = block.len();
    field::put8(block, 0, 1);
    field::put8(block, 1, lengths.len() as u8);
    field::put16(block, 2, len as u16);
    field::put32(block, 4, sequence);
    field::put16(block, 8, 0);
    put_offsets(block, lengths);
    let checksum = block::checksum(block);
    field::put16(block, 8, checksum);
}

// The table of offsets.
fn put_offsets(block: &mut [u8], lengths: &[u32])
    requires { (length block.old ≤ block_longest) × (offset_at (length lengths.now) + sum lengths.now ≡ length block.old) }
    ensures { block.new ≡ splice block.old 10 (offsets (offset_at (length lengths.now)) lengths.now) }
{
    let mut at = Block::HEADER + 2 * lengths.len();
    // An index loop: i is the place in the table.
    for i in 0..lengths.len() {
        field::put16(block, Block::HEADER + 2 * i, at as u16);
        at = at + lengths[i] as usize;
    }
}
