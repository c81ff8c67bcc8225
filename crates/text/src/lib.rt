// Symbols, makers and letters: the form of their bytes.
#![tactic(auto)]

ghost use Rattle.std.specs.Prelude.{◌≡◌, true, ◌≤◌, eqb, length};
ghost use Rattle.lists.specs.Lists.{at, upper};
ghost use Rattle.text.specs.Form.{symbol_length, padded, follows, symbol_good, maker_good, letter_good};

/// The bytes of a symbol.
#[derive(Clone, Copy)]
pub struct Symbol {}

impl Symbol {
    pub const LEN: usize = 11;
}

/// The bytes of a maker's name.
#[derive(Clone, Copy)]
pub struct Maker {}

impl Maker {
    pub const LEN: usize = 4;
}

/// Whether the bytes are a symbol: 11 of them, A to Z first, then printable bytes, then spaces to the end.
pub fn is_symbol(s: &[u8]) -> bool
    ensures { result ≡ symbol_good s.now }
{
    s.len() == Symbol::LEN && is_upper(field::byte(s, 0)) && is_text(s)
}

// Whether printable bytes, then spaces to the end, stand behind the first byte.
// No branch depends on the bytes: where a symbol ends differs from message to message, and a wrong guess costs more than the rest of the check.
fn is_text(s: &[u8]) -> bool
    requires { (length s.now ≡ symbol_length) × (upper (at s.now 0) ≡ true) }
    ensures { result ≡ padded 33 126 s.now }
{
    let mut faults = 0u8;
    // An index loop: each byte is read with the one behind it, and the pairs of `windows(2)` would be indexed too.
    for i in 0..Symbol::LEN - 1 {
        faults = faults + fault(s[i], s[i + 1]);
    }
    faults == 0
}

// 0 if x may follow `before`, else how many rules x breaks.
fn fault(before: u8, x: u8) -> u8
    ensures { (eqb result 0 ≡ follows before x) × (result ≤ 3) }
{
    u8::from(x != b' ') * (u8::from(before < 33) + u8::from(x < 33) + u8::from(126 < x))
}

/// A to Z.
pub fn is_upper(x: u8) -> bool
    ensures { result ≡ upper x }
{
    x.is_ascii_uppercase()
}

/// Bytes from low to high, then spaces to the end.
pub fn is_padded(s: &[u8], low: u8, high: u8) -> bool
    ensures { result ≡ padded low high s.now }
{
    let end = s
        .iter()
        .position(|&x| x < low || high < x)
        .unwrap_or(s.len());
    s[end..].iter().all(|&x| x == b' ')
}

/// A to Z without S.
pub fn is_letter(letter: u8) -> bool
    ensures { result ≡ letter_good letter }
{
    is_upper(letter) && letter != b'S'
}

/// Whether the bytes are a maker's name: A to Z, at least one, then spaces.
pub fn is_maker(s: &[u8]) -> bool
    ensures { result ≡ maker_good s.now }
{
    is_upper(field::byte(s, 0)) && is_padded(s, b'A', b'Z')
}
