// The form of a log of calls: its head, and its records one behind the other (docs/LOG.md). Any bytes may stand in a log.
#![tactic(auto)]

ghost use Rattle.std.specs.Prelude.{◌≡◌, ◌<◌};
ghost use Rattle.logform.specs.Log.{mixed, check_of, is_head, head_of, told, entry_at};

use numbers::Refusal;

/// Lengths and places of a log.
#[derive(Clone, Copy)]
pub struct Log {}

impl Log {
    pub const HEAD: usize = 16;
    /// "QBOOKLOG".
    pub const MARK: u64 = 5855329667519369031;

    pub const VERSION: u8 = 1;
    /// Where the head has n, the requests and its check.
    pub const N: usize = 9;

    pub const REQUESTS: usize = 10;

    pub const HEAD_CHECK: usize = 12;
    /// Where a record has its kind and its arguments; the bytes of its check.
    pub const KIND: usize = 4;

    pub const ARGUMENTS: usize = 13;

    pub const CHECK: usize = 4;

    pub const SHORTEST: usize = Log::ARGUMENTS + Log::CHECK;
}

/// What the head of a log tells: the symbols of the book, and the requests that the calls follow.
#[derive(Clone, Copy)]
pub struct Head {
    pub n: u8,
    pub requests: u16,
}

/// A whole record: the kind of its call, and where its arguments stand.
#[derive(Clone, Copy)]
pub struct Place {
    pub kind: u8,
    pub start: usize,
    pub stop: usize,
}

/// What stands at a place of a log: nothing more, a record that the log's end cuts, one that is damaged, or a whole one.
// its own enum: it says what bytes are, and only a replay refuses two of them
#[derive(Clone, Copy)]
pub enum Entry {
    End,
    Cut,
    Damaged,
    Record(Place),
}

fn mix(h: u32, x: u32) -> u32
    ensures { result ≡ mixed h x }
{
    (((h as u64) * 16777619 + (x as u64)) % 4294967296) as u32
}

/// The check of these bytes.
pub fn check_of(s: &[u8]) -> u32
    ensures { result ≡ check_of s.now }
{
    let mut h: u32 = 2166136261;
    let words = s.len() / 4;
    for i in 0..words {
        h = mix(h, field::get32(s, 4 * i));
    }
    let rest = &s[4 * words..];
    for &x in rest {
        h = mix(h, u32::from(x));
    }
    h
}

/// Whether the log begins with the head of one.
pub fn is_head(log: &[u8]) -> bool
    ensures { result ≡ is_head log.now }
{
    Log::HEAD <= log.len()
        && field::get64(log, 0) == Log::MARK
        && field::get8(log, 8) == Log::VERSION
        && check_of(&log[0..Log::HEAD_CHECK]) == field::get32(log, Log::HEAD_CHECK)
}

/// What the log's head tells; 90 of a log that does not begin with one.
pub fn read_head(log: &[u8]) -> Result<Head, Refusal>
    ensures { told result ≡ head_of log.now }
{
    if !is_head(log) {
        return Err(Refusal::LogHead);
    }
    Ok(Head {
        n: field::get8(log, Log::N),
        requests: field::get16(log, Log::REQUESTS),
    })
}

/// What stands at a place of the log.
pub fn entry_at(log: &[u8], at: usize) -> Entry
    ensures { result ≡ entry_at log.now at }
{
    if log.len() <= at {
        return Entry::End;
    }
    let left = log.len() - at;
    if left < Log::SHORTEST {
        return Entry::Cut;
    }
    let len = field::get32(log, at) as usize;
    if len < Log::SHORTEST {
        return Entry::Damaged;
    }
    if left < len {
        return Entry::Cut;
    }
    let stop = at + len - Log::CHECK;
    if check_of(&log[at..stop]) != field::get32(log, stop) {
        return Entry::Damaged;
    }
    Entry::Record(Place {
        kind: field::get8(log, at + Log::KIND),
        start: at + Log::ARGUMENTS,
        stop,
    })
}
