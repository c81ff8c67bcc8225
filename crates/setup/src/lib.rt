// A tape's setup: makes the book, adds its symbols and opens its lines as they are read, then opens the day.
#![tactic(auto)]

ghost use Rattle.std.specs.Prelude.{◌≤◌, ◌≡◌, length};
ghost use Rattle.setup.specs.Setup as setup;
ghost use Rattle.setup.specs.Setup.{setup_length, tape_symbols};

use input::{Input, Stop};
use opening::Book;
use output::Output;
use text::Symbol;

/// The most symbols that a tape has.
pub const SYMBOLS_MAX: u8 = 8;

/// Bytes of a book for as many.
pub const MEMORY: usize = Book::OPENING_LEN + SYMBOLS_MAX as usize * Book::PAGE_LEN;

// Behind a symbol: its round lot and (document 02, T-10: "reads that letter after the round lot") its primary letter.
const LISTED_LEN: usize = Symbol::LEN + 2;

// A line and its letter.
const LINE_LEN: usize = 2;

/// How many symbols a tape of this count has. More than a tape may have count as none: make refuses both.
pub fn symbols(count: u8) -> u8
    ensures most { result ≤ tape_symbols }
    ensures kept { count ≤ tape_symbols → result ≡ count }
{
    if SYMBOLS_MAX < count { 0 } else { count }
}

/// The whole setup behind its count of symbols. What a call refuses stops it.
pub fn set_up(book: &mut [u8], n: u8, input: &mut Input, out: &mut Output) -> Result<(), Stop> {
    book::make(book, u32::from(n))?;
    for _ in 0..n {
        let bytes = input.take(out, LISTED_LEN)?;
        add_symbol(book, bytes)?;
    }
    for _ in 0..input.count(out)? {
        let bytes = input.take(out, LINE_LEN)?;
        open_line(book, bytes)?;
    }
    book::start_day(book)?; // never refused: the book is made, and its day is closed
    Ok(())
}

// Adds the symbol of these bytes.
fn add_symbol(book: &mut [u8], bytes: &[u8]) -> Result<(), Stop>
    requires { length bytes.now ≡ setup_length setup.Symbol }
{
    let lot = u32::from(bytes[Symbol::LEN]);
    let primary = bytes[Symbol::LEN + 1];
    book::add_symbol(book, &bytes[..Symbol::LEN], lot, primary)?;
    Ok(())
}

// Opens the line of these bytes.
fn open_line(book: &mut [u8], bytes: &[u8]) -> Result<(), Stop>
    requires { length bytes.now ≡ setup_length setup.Line }
{
    book::open_line(book, u32::from(bytes[0]), bytes[1])?;
    Ok(())
}
