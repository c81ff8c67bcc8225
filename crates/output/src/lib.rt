// Standard output through a buffer. What could not be written is told on standard error.
#![tactic(auto)]

ghost use Rattle.std.specs.Prelude.{◌≡◌, ◌≤◌};
ghost use Rattle.output.specs.Output.{output_length};

use itoa::Buffer;
use std::io::{Stderr, Stdout};

/// Standard output and its buffer: the first `filled` bytes wait.
#[derive(Clone, Copy)]
pub struct Output {
    output: Stdout,
    errors: Stderr,
    bytes: [u8; Output::LEN],
    pub filled: usize,
    pub ghost within: { filled ≤ output_length },
}

impl Output {
    pub const LEN: usize = 65536;

    pub fn new(output: Stdout, errors: Stderr) -> Output
        ensures { result.filled ≡ 0 }
    {
        Output {
            output,
            errors,
            bytes: [0; Output::LEN],
            filled: 0,
        }
    }

    /// Writes what waits, or says that it could not.
    pub fn flush(&mut self)
        ensures { self.new.filled ≡ 0 }
    {
        let bytes: &[u8] = &self.bytes;
        let written = self.output.write_all(&bytes[0..self.filled]);
        self.filled = 0;
        if written.is_err() {
            self.warn(b"tape: the output could not be written\n");
        }
    }

    /// A line on standard error.
    pub fn warn(&self, line: &[u8]) {
        let _ = self.errors.write_all(line);
    }

    /// One byte more. A full buffer is written first.
    pub fn put(&mut self, b: u8) {
        if self.filled < Output::LEN {
            self.bytes[self.filled] = b;
            self.filled += 1;
            return;
        }
        self.flush();
        self.bytes[0] = b;
        self.filled = 1;
    }

    pub fn put_text(&mut self, text: &[u8]) {
        for &b in text {
            self.put(b);
        }
    }

    /// A name without its trailing spaces.
    pub fn put_name(&mut self, name: &[u8]) {
        for &b in name.iter().take_while(|&&b| b != b' ') {
            self.put(b);
        }
    }

    /// A line: a word, then numbers, each behind a space.
    pub fn put_line(&mut self, word: &[u8], numbers: &[u64]) {
        self.put_text(word);
        for &n in numbers {
            self.put(b' ');
            self.put_text(Buffer::new().format(n).as_bytes());
        }
        self.put(b'\n');
    }
}
