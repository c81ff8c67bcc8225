// A tape on standard input, through a buffer: its bytes in hand, and why the reading stopped.
#![tactic(auto)]

ghost use Rattle.std.specs.Prelude.{◌≡◌, ◌+◌, ◌≤◌, length, IfOk, OnOk};
ghost use Rattle.input.specs.Input.{input_length, head_length, block_most};

use numbers::Refusal;
use output::Output;
use std::io::{Read, Stdin};

/// Why the reading stopped.
#[derive(Clone, Copy, Debug, PartialEq, Eq)]
pub enum Stop {
    /// The tape ended between two records.
    End,
    /// The tape ended elsewhere.
    Cut,
    /// A call of the setup was refused.
    Refused(Refusal),
}

impl From<Refusal> for Stop {
    ghost use Rattle.input.specs.declared.Stop.TheVariants.{Refused};

    ghost from_gives = { λ refusal stop. stop ≡ Refused refusal };

    fn from(refusal: Refusal) -> Stop {
        Stop::Refused(refusal)
    }
}

/// A record of a tape: a line and its block.
#[derive(Clone, Copy)]
pub struct Record<'a> {
    pub line: u8,
    pub block: &'a [u8],
}

impl<'a> Record<'a> {
    // Before the block: the line, and the length of the block in two bytes.
    const HEAD: usize = 3;
}

/// Standard input and its buffer, into which the longest record fits: the bytes from `from` to `to` are read and not yet used.
#[derive(Clone, Copy)]
pub struct Input {
    input: Stdin,
    bytes: [u8; Input::LEN],
    pub from: usize,
    pub to: usize,
    pub ghost in_hand: { from ≤ to },
    pub ghost within: { to ≤ input_length },
}

impl Input {
    pub const LEN: usize = 131072;

    pub fn new(input: Stdin) -> Input
        ensures { (result.from ≡ 0) × (result.to ≡ 0) }
    {
        Input {
            input,
            bytes: [0; Input::LEN],
            from: 0,
            to: 0,
        }
    }

    /// One byte: how many symbols or lines follow.
    pub fn count(&mut self, out: &mut Output) -> Result<u8, Stop> {
        let bytes = self.take(out, 1)?;
        Ok(bytes[0])
    }

    /// The next n bytes of a tape that may not end before them.
    pub fn take(&mut self, out: &mut Output, n: usize) -> Result<&[u8], Stop>
        requires { n ≤ input_length }
        ensures { IfOk result (λ bytes. length bytes.now ≡ n) }
    {
        self.hold(out, n, Stop::Cut)?;
        Ok(self.used(n))
    }

    /// The next record: its line, the length of its block, the block. A tape may end before it.
    pub fn next_record(&mut self, out: &mut Output) -> Result<Record<'_>, Stop> {
        self.hold(out, Record::HEAD, Stop::End)?;
        let at = self.from;
        let line = self.bytes[at];
        let len = u16::from_be_bytes([self.bytes[at + 1], self.bytes[at + 2]]);
        let end = record_len(len);
        self.hold(out, end, Stop::Cut)?;
        let bytes = self.used(end);
        Ok(Record {
            line,
            block: &bytes[Record::HEAD..],
        })
    }

    // The n bytes in hand, which are used now.
    fn used(&mut self, n: usize) -> &[u8]
        requires { self.old.from + n ≤ self.old.to }
        ensures { length result.now ≡ n }
    {
        let at = self.from;
        self.from = at + n;
        let bytes: &[u8] = &self.bytes;
        &bytes[at..at + n]
    }

    // Holds n bytes from `from` on. A tape that has fewer is cut; where it has none, the reading stops as `none` says.
    // What waits in the output is written before the program may wait.
    fn hold(&mut self, out: &mut Output, n: usize, none: Stop) -> Result<(), Stop>
        requires { n ≤ input_length }
        ensures { OnOk result (self.new.from + n ≤ self.new.to) }
    {
        if n <= self.to - self.from {
            return Ok(());
        }
        out.flush();
        self.move_front();
        self.fill(out, n);
        judge(n, self.to, none)
    }

    // The bytes in hand go to the front.
    fn move_front(&mut self)
        ensures { self.new.from ≡ 0 }
    {
        self.bytes.copy_within(self.from..self.to, 0);
        self.to -= self.from;
        self.from = 0;
    }

    // Reads until n bytes are in hand, or the input ends.
    fn fill(&mut self, out: &Output, n: usize)
        requires { n ≤ input_length }
        ensures { self.new.from ≡ self.old.from }
    {
        // not a count: a read brings as many bytes as it will
        while self.to < n {
            let got = self.read(out);
            if got == 0 {
                return;
            }
            self.to += got;
        }
    }

    // One read behind the bytes in hand; how many came. One that fails is told on standard error, and is an end of the input otherwise.
    fn read(&mut self, out: &Output) -> usize
        ensures came { self.new.to + result ≤ input_length }
        ensures stays { (self.new.from ≡ self.old.from) × (self.new.to ≡ self.old.to) }
    {
        let to = self.to;
        let Ok(got) = self.input.read(&mut self.bytes[to..]) else {
            out.warn(b"tape: the input could not be read\n");
            return 0;
        };
        got
    }
}

// Bytes of a record with a block of `len` bytes.
fn record_len(len: u16) -> usize
    ensures whole { result ≡ head_length + len }
    ensures most { result ≤ head_length + block_most }
{
    Record::HEAD + usize::from(len)
}

// Whether the reading goes on, of a tape that has `to` bytes where n are asked for.
fn judge(n: usize, to: usize, none: Stop) -> Result<(), Stop>
    ensures { OnOk result (n ≤ to) }
{
    if n <= to {
        return Ok(());
    }
    Err(if to == 0 { none } else { Stop::Cut })
}
