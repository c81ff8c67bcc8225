// The calls that make a book and set it up: its symbols, its lines, its day.
#![tactic(auto)]

ghost use Rattle.std.specs.Prelude.{◌≡◌};
ghost use Rattle.lists.specs.Lists.{member};
ghost use Rattle.numbers.specs.Numbers.{answered, number_of};
ghost use Rattle.calls.specs.Call.{bare, number_on, lots, call, make, add, open_line, start_day, end_day};
ghost use Rattle.book.specs.code.Day.{day_number};

use numbers::Refusal;
use opening::{Book, Line};

/// Makes the lent memory a book for n symbols: no symbols, no lines, a closed day. Whatever it held is overwritten.
pub fn make(book: &mut [u8], n: u32) -> Result<(), Refusal>
    ensures { record { bytes = book.new; answer = bare (answered result) } ≡ call book.old (make n) }
{
    if n < 1 {
        return Err(Refusal::Make);
    }
    if Book::N_MAX < n {
        return Err(Refusal::Make);
    }
    let symbols = n as usize;
    if book.len() != Book::OPENING_LEN + symbols * Book::PAGE_LEN {
        return Err(Refusal::Make);
    }
    let end = book.len();
    makers::clear(book, 0, end);
    field::put64(book, 0, Book::MARK);
    field::put8(book, Book::N, n as u8);
    field::put32(book, Book::FIRST_PAGE, Book::OFFSET);
    opening::empty_pages(book, symbols);
    Ok(())
}

/// Adds a symbol with its round lot and its primary letter, whose line may halt it.
pub fn add_symbol(book: &mut [u8], symbol: &[u8], lot: u32, primary: u8) -> Result<(), Refusal>
    ensures { record { bytes = book.new; answer = bare (answered result) } ≡ call book.old (add symbol.now lot primary) }
{
    judge_symbol(book, symbol, lot, primary)?;
    let count = field::get8(book, Book::COUNT);
    field::put8(book, Book::COUNT, count + 1);
    let a = Book::OPENING_LEN + (count as usize) * Book::PAGE_LEN;
    let e = a + Book::PAGE_LEN;
    update::list(&mut book[a..e], symbol, lot as u8, primary);
    opening::put_hint(book, symbol, count);
    Ok(())
}

// Checks 1, 3, 6, 75, 4, 5.
fn judge_symbol(book: &[u8], symbol: &[u8], lot: u32, primary: u8) -> Result<(), Refusal>
    ensures { answered result ≡ number_on book.now (add symbol.now lot primary) }
{
    if !opening::is_sound(book) {
        return Err(Refusal::NoBook);
    }
    if !text::is_symbol(symbol) {
        return Err(Refusal::SymbolMalformed);
    }
    if !is_lot(lot) {
        return Err(Refusal::RoundLot);
    }
    if !text::is_letter(primary) {
        return Err(Refusal::Primary);
    }
    if opening::find(book, symbol).is_some() {
        return Err(Refusal::SymbolListed);
    }
    if field::get8(book, Book::COUNT) < field::get8(book, Book::N) {
        return Ok(());
    }
    Err(Refusal::BookFull)
}

fn is_lot(lot: u32) -> bool
    ensures { result ≡ member lots lot }
{
    matches!(lot, 1 | 10 | 25 | 50 | 100)
}

/// Opens a line for a letter.
pub fn open_line(book: &mut [u8], line: u32, letter: u8) -> Result<(), Refusal>
    ensures { record { bytes = book.new; answer = bare (answered result) } ≡ call book.old (open_line line letter) }
{
    judge_line(book, line, letter)?;
    opening::put_line(
        book,
        line,
        Line {
            letter,
            expected: 1,
            count: 0,
        },
    );
    Ok(())
}

// Checks 1, 7, 8.
fn judge_line(book: &[u8], line: u32, letter: u8) -> Result<(), Refusal>
    ensures { answered result ≡ number_on book.now (open_line line letter) }
{
    if !opening::is_sound(book) {
        return Err(Refusal::NoBook);
    }
    if Line::LAST < line {
        return Err(Refusal::LineOrLetter);
    }
    if !text::is_letter(letter) {
        return Err(Refusal::LineOrLetter);
    }
    if opening::line_state(book, line).is_some() {
        return Err(Refusal::LineOpen);
    }
    Ok(())
}

// Check 1, then the day's: it is to be open (1) or not (0), else the call is refused so. `day` is the book's own byte.
fn judge_day(book: &[u8], day: u8, refusal: Refusal) -> Result<(), Refusal>
    ensures { answered result ≡ day_number book.now day (number_of refusal) }
{
    if !opening::is_sound(book) {
        return Err(Refusal::NoBook);
    }
    if field::get8(book, Book::DAY) != day {
        return Err(refusal);
    }
    Ok(())
}

/// Start of Day: empties all quotes, makers and levels, restarts every line, and opens the day.
pub fn start_day(book: &mut [u8]) -> Result<(), Refusal>
    ensures { record { bytes = book.new; answer = bare (answered result) } ≡ call book.old start_day }
{
    judge_day(book, 0, Refusal::DayOpen)?;
    let n = field::get8(book, Book::N) as usize;
    opening::empty_pages(book, n);
    opening::restart_lines(book);
    field::put8(book, Book::DAY, 1);
    Ok(())
}

/// End of Day: closes the day and keeps the quotes.
pub fn end_day(book: &mut [u8]) -> Result<(), Refusal>
    ensures { record { bytes = book.new; answer = bare (answered result) } ≡ call book.old end_day }
{
    judge_day(book, 1, Refusal::DayNotOpen)?;
    field::put8(book, Book::DAY, 0);
    Ok(())
}
