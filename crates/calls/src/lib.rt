// The rules of every call stand in specs/Call.antt; here are the checks that calls with a symbol share, and what the block call reports.
#![tactic(auto)]

ghost use Rattle.std.specs.Prelude.{◌≡◌, true};
ghost use Rattle.opening.specs.Opening.{sound};
ghost use Rattle.calls.specs.code.Known.{known_of, found_of};

use numbers::Refusal;

/// What the block call reports. The number is 0 or 70 for a taken block, else the refusal; a refused block reports its line's numbers too.
#[derive(Clone, Copy)]
pub struct Report {
    // 0 and 70 are no refusals, and C reads the number
    pub number: u8,
    pub gap: u32,
    pub expected: u32,
    pub count: u64,
    pub accepted: u8,
    pub partly: u8,
    pub rejected: u8,
}

/// Checks 1 and 10: where the page of a symbol is.
pub fn known(book: &[u8], symbol: &[u8]) -> Result<usize, Refusal>
    ensures { result ≡ known_of book.now symbol.now }
{
    if !opening::is_sound(book) {
        return Err(Refusal::NoBook);
    }
    listed(book, symbol)
}

/// Check 10, in a sound book.
pub fn listed(book: &[u8], symbol: &[u8]) -> Result<usize, Refusal>
    requires { sound book.now ≡ true }
    ensures { result ≡ found_of book.now symbol.now }
{
    if !text::is_symbol(symbol) {
        return Err(Refusal::SymbolUnknown);
    }
    opening::find(book, symbol).ok_or(Refusal::SymbolUnknown)
}
