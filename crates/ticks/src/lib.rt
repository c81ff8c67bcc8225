// The calls of the allowance: its setting and the tick.
#![tactic(auto)]

ghost use Rattle.std.specs.Prelude.{◌≡◌};
ghost use Rattle.numbers.specs.Numbers.{answered};
ghost use Rattle.calls.specs.Call.{bare, call, number_on, set_allowance, tick};

use allowance::Allowance;
use numbers::Refusal;
use opening::Book;

/// Sets an allowance of blocks for each tick with a share for each of the 64 lines, and starts a tick.
pub fn set_allowance(book: &mut [u8], blocks: u32, shares: &[u8]) -> Result<(), Refusal>
    ensures { record { bytes = book.new; answer = bare (answered result) } ≡ call book.old (set_allowance blocks shares.now) }
{
    judge_setting(book, blocks, shares)?;
    field::put8(book, Book::ALLOWANCE, blocks as u8);
    writer::copy(book, Book::ALLOWANCE + Allowance::SHARES, shares);
    makers::clear(
        book,
        Book::ALLOWANCE + Allowance::CHARGES,
        Book::OPENING_LEN,
    );
    Ok(())
}

// Checks 1, 84, 85.
fn judge_setting(book: &[u8], blocks: u32, shares: &[u8]) -> Result<(), Refusal>
    ensures { answered result ≡ number_on book.now (set_allowance blocks shares.now) }
{
    if !opening::is_sound(book) {
        return Err(Refusal::NoBook);
    }
    allowance::judge(blocks, shares)
}

/// Starts the next tick. Without an allowance nothing changes.
pub fn next_tick(book: &mut [u8]) -> Result<(), Refusal>
    ensures { record { bytes = book.new; answer = bare (answered result) } ≡ call book.old tick }
{
    if !opening::is_sound(book) {
        return Err(Refusal::NoBook);
    }
    if field::get8(book, Book::ALLOWANCE) == 0 {
        return Ok(());
    }
    makers::clear(
        book,
        Book::ALLOWANCE + Allowance::CHARGES,
        Book::OPENING_LEN,
    );
    Ok(())
}
