// The opening of a book: its head, its lines, and where the page of a symbol is.
#![tactic(auto)]

ghost use Rattle.std.specs.Prelude.{◌≡◌, ◌+◌, ◌*◌, ◌%◌, ◌<◌, ◌≤◌, true, length, ◌==◌};
ghost use Rattle.field.specs.Field.{be, field, part, splice};
ghost use Rattle.block.specs.Sequence.{next_of};
ghost use Rattle.update.specs.Parts.{emptied};
ghost use Rattle.opening.specs.Opening.{line_bytes, each_page, line_after, first_place, is_place, page_place, hinted, restart_lines, restarted, sound, lines_in, allowance_on, on_allowance};
ghost use Rattle.allowance.specs.Allowance.{is_used_up, charged_to};
ghost use Rattle.opening.specs.Layout.{opening_length, book_length, page_start, count_at, line_count, line_at, symbols_most, line_length};
ghost use Rattle.page.specs.Layout.{hints_at, hint_count};
ghost use Rattle.text.specs.Form.{symbol_length};

use allowance::Allowance;
use page::Page;

/// Where the book's bytes stand: an opening, then n pages. specs/Layout.antt says the same.
#[derive(Clone, Copy)]
pub struct Book {}

impl Book {
    pub const OPENING_LEN: usize = Book::ALLOWANCE + Allowance::LEN;

    /// Where the first page starts, as the opening says it.
    pub const OFFSET: u32 = Book::OPENING_LEN as u32;

    pub const PAGE_LEN: usize = Page::LEN;
    /// The most symbols that a book is made for.
    pub const N_MAX: u32 = 64;

    pub const SYMBOLS_MAX: usize = Book::N_MAX as usize;
    /// QUOTEBK1, as one number.
    pub const MARK: u64 = 0x51554F5445424B31;
    /// n, the count of symbols, the day flag, the offset of the first page, the lines, the allowance.
    pub const N: usize = 8;

    pub const COUNT: usize = Book::N + 1;

    pub const DAY: usize = Book::COUNT + 1;

    pub const FIRST_PAGE: usize = Book::DAY + 1;

    pub const LINES: usize = Book::FIRST_PAGE + 4;
    /// Behind the lines: B, the shares and the charges.
    pub const ALLOWANCE: usize = Book::LINES + Line::LINES * Line::LEN;

    pub const PUBLICATION_LEN: usize = Page::ENTRIES_LEN;
}

/// A line's record: its letter, its next expected number and its count.
#[derive(Clone, Copy)]
pub struct Line {
    pub letter: u8,
    pub expected: u32,
    pub count: u64,
}

impl Line {
    /// Bytes of a line: letter 1, next expected 4, count 8; 64 lines.
    pub const LEN: usize = 13;

    pub const EXPECTED: usize = 1;

    pub const COUNT: usize = 5;

    pub const LINES: usize = 64;

    pub const LAST: u32 = Line::LINES as u32 - 1;
}

/// Whether mark, n, count, day flag, offset and length are a book's.
pub fn is_sound(book: &[u8]) -> bool
    ensures { result ≡ sound book.now }
{
    if book.len() < Book::OPENING_LEN {
        return false; // what is read below stands in the opening
    }
    let n = field::get8(book, Book::N) as usize;
    field::get64(book, 0) == Book::MARK
        && 1 <= n
        && n <= Book::SYMBOLS_MAX
        && field::get8(book, Book::COUNT) as usize <= n
        && field::get8(book, Book::DAY) <= 1
        && field::get32(book, Book::FIRST_PAGE) == Book::OFFSET
        && book.len() == Book::OPENING_LEN + n * Book::PAGE_LEN
}

/// The page of the symbol whose 11 bytes are lent: the hinted one if it is counted and has the symbol, else the first that has it.
pub fn find(book: &[u8], symbol: &[u8]) -> Option<usize>
    requires { (sound book.now ≡ true) × (length symbol.now ≡ symbol_length) }
    ensures { result ≡ page_place book.now (be symbol.now) }
{
    let count = field::get8(book, Book::COUNT) as usize;
    let high = field::get64(symbol, 0);
    let middle = field::get16(symbol, 8);
    let low = field::get8(symbol, 10);
    let k = field::get8(book, hint_at(high)) as usize;
    if is_place(book, count, k, high, middle, low) {
        return Some(k);
    }
    first(book, count, high, middle, low)
}

// Whether page k is counted and has the symbol of these 8, 2 and 1 bytes.
fn is_place(book: &[u8], count: usize, k: usize, high: u64, middle: u16, low: u8) -> bool
    requires { (sound book.now ≡ true) × (count ≡ field book.now count_at 1) }
    ensures { result ≡ is_place book.now (high * 16777216 + (middle * 256 + low)) k }
{
    k < count
        && has_symbol(
            book,
            Book::OPENING_LEN + k * Book::PAGE_LEN,
            high,
            middle,
            low,
        )
}

// Where the hint stands for symbols of these first 8 bytes: on the first page.
fn hint_at(high: u64) -> usize
    ensures { (result ≡ page_start 0 + (hints_at + high % hint_count)) × (result < book_length 1) }
{
    Book::OPENING_LEN + Page::HINTS + (high % 251) as usize
}

/// Makes page k the hint for the symbol whose 11 bytes are lent.
pub fn put_hint(book: &mut [u8], symbol: &[u8], k: u8)
    requires { (book_length 1 ≤ length book.old) × (length symbol.now ≡ symbol_length) }
    ensures { book.new ≡ hinted (be symbol.now) k book.old }
{
    let high = field::get64(symbol, 0);
    field::put8(book, hint_at(high), k);
}

// The first counted page with the symbol of these 8, 2 and 1 bytes.
fn first(book: &[u8], count: usize, high: u64, middle: u16, low: u8) -> Option<usize>
    requires { (sound book.now ≡ true) × (count ≡ field book.now count_at 1) }
    ensures { result ≡ first_place book.now (high * 16777216 + (middle * 256 + low)) }
{
    for k in 0..count {
        if has_symbol(
            book,
            Book::OPENING_LEN + k * Book::PAGE_LEN,
            high,
            middle,
            low,
        ) {
            return Some(k);
        }
    }
    None
}

// Whether the 11 bytes at `at` are these 8, 2 and 1.
fn has_symbol(book: &[u8], at: usize, high: u64, middle: u16, low: u8) -> bool
    requires { at + symbol_length ≤ length book.now }
    ensures { result ≡ (field book.now at symbol_length == high * 16777216 + (middle * 256 + low)) }
{
    field::get64(book, at) == high
        && field::get16(book, at + 8) == middle
        && field::get8(book, at + 10) == low
}

/// A line as it stands in the book, if it is open.
pub fn line_state(book: &[u8], line: u32) -> Option<Line>
    requires { sound book.now ≡ true }
    ensures { result ≡ lines_in book.now line }
{
    if Line::LAST < line {
        return None;
    }
    let at = Book::LINES + (line as usize) * Line::LEN;
    let letter = field::get8(book, at);
    if text::is_letter(letter) {
        let expected = field::get32(book, at + Line::EXPECTED);
        let count = field::get64(book, at + Line::COUNT);
        return Some(Line {
            letter,
            expected,
            count,
        });
    }
    None
}

pub fn put_line(book: &mut [u8], line: u32, x: Line)
    requires { (opening_length ≤ length book.old) × (line < line_count) }
    ensures { book.new ≡ splice book.old (line_at line) (line_bytes x) }
{
    let at = Book::LINES + (line as usize) * Line::LEN;
    field::put8(book, at, x.letter);
    field::put32(book, at + Line::EXPECTED, x.expected);
    field::put64(book, at + Line::COUNT, x.count);
}

/// Check 86: the line's share of the allowance is used, and the spare is.
pub fn is_used_up(book: &[u8], line: u32) -> bool
    requires { (opening_length ≤ length book.now) × (line < line_count) }
    ensures { result ≡ is_used_up (allowance_on book.now) line }
{
    allowance::is_used_up(&book[Book::ALLOWANCE..Book::OPENING_LEN], line as usize)
}

/// Charges a block to its line, if an allowance is set.
pub fn charge(book: &mut [u8], line: u32)
    requires { (opening_length ≤ length book.old) × (line < line_count) }
    ensures { book.new ≡ on_allowance (charged_to line) book.old }
{
    allowance::charge(&mut book[Book::ALLOWANCE..Book::OPENING_LEN], line as usize);
}

// A block of c messages with that sequence number moves its line on, in place. Its proof is by hand, so this stays thin.
fn step(line: &mut Line, sequence: u32, c: u32)
    ensures { line.new ≡ line_after line.old (next_of sequence c) c }
{
    line.expected = std::num::wrapping_add_u32(sequence, c);
    line.count = std::num::wrapping_add_u64(line.count, c as u64);
}

/// The same by value, so that no caller lends a record: whoever does needs a proof by hand, as this function has.
pub fn advance(old: Line, sequence: u32, c: u32) -> Line
    ensures { result ≡ line_after old (next_of sequence c) c }
{
    let mut line = old;
    step(&mut line, sequence, c);
    line
}

fn restart_line(book: &mut [u8], i: usize)
    requires { (opening_length ≤ length book.old) × (i < line_count) }
    ensures { book.new ≡ splice book.old (line_at i) (restarted (part book.old (line_at i) line_length)) }
{
    let at = Book::LINES + i * Line::LEN;
    field::put32(book, at + Line::EXPECTED, 1);
    field::put64(book, at + Line::COUNT, 0);
}

pub fn restart_lines(book: &mut [u8])
    requires { opening_length ≤ length book.old }
    ensures { book.new ≡ restart_lines 0 line_count book.old }
{
    for i in 0..Line::LINES {
        restart_line(book, i);
    }
}

pub fn empty_pages(book: &mut [u8], n: usize)
    requires { (n ≤ symbols_most) × (length book.old ≡ book_length n) }
    ensures { book.new ≡ each_page emptied 0 n book.old }
{
    for k in 0..n {
        let a = Book::OPENING_LEN + k * Book::PAGE_LEN;
        let e = a + Book::PAGE_LEN;
        update::empty(&mut book[a..e]);
    }
}
