// A block in the form of source document 000: where its messages stand, and checks 78 and 79 (document 02, T-11).
#![tactic(auto)]

ghost use Rattle.std.specs.Prelude.{◌≡◌, ℕ, Bool, true, List, ◌+◌, ◌≤◌, ◌<◌, length};
ghost use Rattle.numbers.specs.Numbers.{answered};
ghost use Rattle.venue.specs.code.Each.{all_by, Tries, Decides};
ghost use Rattle.venue.specs.Venue.{venue_first, venue_longest, venue_sequence, venue_count, size_good, lies_at, ends_at, laid_from, block_good, next_at, venue_from, venue_messages, messages_good, messages_placed, venue_number};

use numbers::Refusal;

/// The lengths of a venue's block, and where the fields of its header stand.
#[derive(Clone, Copy)]
pub struct Venues {}

impl Venues {
    pub const VERSION: usize = 0;

    pub const SIZE: usize = 1;

    pub const SEQUENCE: usize = 3;

    pub const COUNT: usize = 7;

    pub const CHECKSUM: usize = 8;

    pub const FIRST: usize = 10;

    pub const SHORTEST: usize = 36;

    pub const LONGEST: usize = 998;
}

/// Checks 78 and 79: a venue's block breaks 000's rules; or something in it has no place here.
pub fn judge(block: &[u8]) -> Result<(), Refusal>
    ensures { answered result ≡ venue_number block.now }
{
    if !is_block_good(block) || !are_good(block) {
        return Err(Refusal::VenueBlock);
    }
    if !are_placed(block) {
        return Err(Refusal::VenueUnplaced);
    }
    Ok(())
}

// B1 to B8.
fn is_block_good(block: &[u8]) -> bool
    ensures { result ≡ block_good block.now }
{
    if !is_size_good(block) {
        return false;
    }
    field::byte(block, Venues::VERSION) == 0
        && block::checksum(block) == field::get16(block, Venues::CHECKSUM)
        && 1 <= count(block)
        && is_laid(block, count(block))
}

// B1 to B3.
fn is_size_good(block: &[u8]) -> bool
    ensures { result ≡ size_good block.now }
{
    let len = block.len();
    Venues::SHORTEST <= len
        && len <= Venues::LONGEST
        && usize::from(field::get16(block, Venues::SIZE)) == len
        && len % 2 == 0
}

/// The count of messages that the header gives. Any bytes.
pub fn count(block: &[u8]) -> usize
    ensures { (result ≡ venue_count block.now) × (result < 256) }
{
    usize::from(field::byte(block, Venues::COUNT))
}

// B7, B8: c messages stand end to end, and end the block or stand before its pad byte.
fn is_laid(block: &[u8], c: usize) -> bool
    requires { (venue_first ≤ length block.now) × (length block.now ≤ venue_longest) }
    ensures { result ≡ laid_from block.now venue_first c }
{
    // p walks beside i: a message's own length says where the next one starts.
    let mut p = Venues::FIRST;
    for i in 0..c {
        if !lies(block, p) {
            return false;
        }
        p = next(block, p);
    }
    ends(block, p)
}

// B7.
fn lies(block: &[u8], p: usize) -> bool
    requires { (p ≤ length block.now) × (length block.now ≤ venue_longest) }
    ensures { result ≡ lies_at block.now p }
{
    if block.len() < p + 26 {
        return false;
    }
    let n = usize::from(field::get16(block, p));
    26 <= n && p + n <= block.len()
}

// B8.
fn ends(block: &[u8], p: usize) -> bool
    requires { (p ≤ length block.now) × (length block.now ≤ venue_longest) }
    ensures { result ≡ ends_at block.now p }
{
    p == block.len() || p + 1 == block.len() && field::byte(block, p) == 0
}

/// Where the message behind the one at p starts, by that one's length; the block's end if it has none. Any bytes.
pub fn next(block: &[u8], p: usize) -> usize
    ensures { result ≡ next_at block.now p }
{
    let len = block.len();
    if len < 2 || len - 2 < p {
        return len;
    }
    let n = usize::from(field::get16(block, p));
    if len - p < n {
        return len;
    }
    p + n
}

// 78 of each message.
fn are_good(block: &[u8]) -> bool
    requires { block_good block.now ≡ true }
    ensures { result ≡ messages_good (venue_count block.now) (venue_sequence block.now) 0 (venue_messages block.now) }
{
    let c = count(block);
    let sequence = field::get32(block, Venues::SEQUENCE);
    pass_all(
        block,
        |i, msg| venuerules::is_message_good(c, sequence, i, msg),
    )
}

// 79 of each message.
fn are_placed(block: &[u8]) -> bool
    requires { block_good block.now ≡ true }
    ensures { result ≡ messages_placed (venue_messages block.now) }
{
    pass_all(block, |_i, msg| venuerules::is_message_placed(msg))
}

// Whether a test passes each message; it gets the message's number in the block, and its bytes.
fn pass_all<F: Fn(usize, &[u8]) -> bool>(block: &[u8], test: F) -> bool
    requires good { block_good block.now ≡ true }
    requires calls { Tries (F.pre test) }
    ensures { (rule : ℕ → List ℕ → Bool) → Decides (F.post test) rule → result ≡ all_by rule 0 (venue_messages block.now) }
{
    let c = count(block);
    // p beside i, as in `is_laid`; i is what the test gets.
    let mut p = Venues::FIRST;
    for i in 0..c {
        let e = next(block, p);
        if !test(i, &block[p..e]) {
            return false;
        }
        p = e;
    }
    true
}
