// A block of messages, and the sequence numbers of a line.
#![tactic(auto)]

ghost use Rattle.std.specs.Prelude.{◌≡◌, ◌+◌, ◌*◌, ◌<◌, ◌≤◌, true, Ok, length};
ghost use Rattle.lists.specs.Lists.{at, sum};
ghost use Rattle.block.specs.Block.{block_longest, Readable, count_in, sequence_in, checksum_of, start_at, spaced, table_good, control_among, idle_block, checked};
ghost use Rattle.block.specs.Sequence.{arrival_of};

use numbers::Refusal;

/// A block's lengths. Header: version 1, message count 1, length 2, sequence number 4, checksum 2; then a table of 2 bytes a message.
#[derive(Clone, Copy)]
pub struct Block {}

impl Block {
    pub const HEADER: usize = 10;

    pub const SHORTEST: usize = 32;

    pub const LONGEST: usize = 1000;

    pub const MESSAGES: usize = 45;
    /// Four bytes of answer for each message.
    pub const ANSWER_LEN: usize = 4 * Block::MESSAGES;

    pub const MESSAGE_SHORTEST: usize = 20;
}

/// Checks 30 to 34 in their order, on any bytes: the count of messages, or the first check that refuses.
pub fn check_block(block: &[u8]) -> Result<usize, Refusal>
    ensures { result ≡ checked block.now }
{
    let len = block.len();
    if len < Block::SHORTEST {
        return Err(Refusal::BlockLength);
    }
    if Block::LONGEST < len {
        return Err(Refusal::BlockLength);
    }
    if field::get16(block, 2) as usize != len {
        return Err(Refusal::BlockLength);
    }
    if field::get8(block, 0) != 1 {
        return Err(Refusal::Version);
    }
    if checksum(block) != field::get16(block, 8) {
        return Err(Refusal::Checksum);
    }
    let c = count(block);
    if is_table_good(block, c) {
        if is_control_among(block, c) {
            return Err(Refusal::ControlNotAlone);
        }
        return Ok(c);
    }
    Err(Refusal::Offsets)
}

/// The count of messages that the header gives.
pub fn count(block: &[u8]) -> usize
    requires { 2 ≤ length block.now }
    ensures { result ≡ count_in block.now }
{
    field::get8(block, 1) as usize
}

/// The sequence number of the first message.
pub fn sequence(block: &[u8]) -> u32
    requires { 8 ≤ length block.now }
    ensures { result ≡ sequence_in block.now }
{
    field::get32(block, 4)
}

/// The sum of all bytes, those of the checksum taken as zero, modulo 65,536.
pub fn checksum(block: &[u8]) -> u16
    requires { (10 ≤ length block.now) × (length block.now ≤ block_longest) }
    ensures { result ≡ checksum_of block.now }
{
    let own = (field::get8(block, 8) as u32) + (field::get8(block, 9) as u32);
    ((total(block) - own) % 65536) as u16
}

/// The sum of at most 1,000 bytes.
pub fn total(s: &[u8]) -> u32
    requires { length s.now ≤ block_longest }
    ensures { result ≡ sum s.now }
{
    s.iter().map(|&x| u32::from(x)).sum()
}

/// Where message i of c starts; past the last, the block's end.
pub fn start(block: &[u8], c: usize, i: usize) -> usize
    requires { Readable block.now c }
    ensures { (result ≡ start_at block.now i) × (result < 65536) }
{
    if i < c {
        return field::get16(block, Block::HEADER + 2 * i) as usize;
    }
    block.len()
}

// Check 33: 1 to 45 messages, the first behind the table, each of at least 20 bytes.
fn is_table_good(block: &[u8], c: usize) -> bool
    requires { (c ≡ count_in block.now) × (length block.now ≤ block_longest) }
    ensures { result ≡ table_good block.now }
{
    1 <= c
        && c <= Block::MESSAGES
        && Block::HEADER + 2 * c <= block.len()
        && start(block, c, 0) == Block::HEADER + 2 * c
        && is_spaced(block, c)
}

// Whether each of the c messages has at least 20 bytes.
fn is_spaced(block: &[u8], c: usize) -> bool
    requires { Readable block.now c }
    ensures { result ≡ spaced block.now }
{
    for i in 0..c {
        if start(block, c, i + 1) < start(block, c, i) + Block::MESSAGE_SHORTEST {
            return false;
        }
    }
    true
}

// Check 34: a control message (category C) is alone in its block.
fn is_control_among(block: &[u8], c: usize) -> bool
    requires { Readable block.now c × (spaced block.now ≡ true) }
    ensures { result ≡ control_among block.now }
{
    if c < 2 {
        return false;
    }
    for i in 0..c {
        let at = start(block, c, i);
        if field::get8(block, at) == b'C' {
            return true;
        }
    }
    false
}

/// Whether the block's first message is C I, C T or C 5: such a block skips checks 20 and 35 and moves nothing of its line.
pub fn is_idle(block: &[u8], c: usize) -> bool
    requires { checked block.now ≡ Ok c }
    ensures { result ≡ idle_block block.now }
{
    let at = start(block, c, 0);
    if field::get8(block, at) != b'C' {
        return false;
    }
    matches!(field::get8(block, at + 1), b'I' | b'T' | b'5')
}

/// A block that comes in order (gap 0) or behind a gap, and the next expected number after it.
#[derive(Clone, Copy)]
pub struct Arrival {
    pub gap: u32,
    pub next: u32,
}

/// How a block's sequence number meets the expected one. The difference modulo 2^32: up to half the range it is in order or a gap, more is a duplicate,
/// which gives none.
pub fn arrive(received: u32, expected: u32, c: u32) -> Option<Arrival>
    ensures { result ≡ arrival_of received expected c }
{
    let gap = std::num::wrapping_sub_u32(received, expected);
    if gap <= 2147483647 {
        let next = std::num::wrapping_add_u32(received, c);
        return Some(Arrival { gap, next });
    }
    None
}
