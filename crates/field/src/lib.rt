// Unsigned numbers in lent bytes: big-endian ones, and little-endian ones in `low` and `put_low`, the machine's own order. A big-endian number is
// read or written in that order and swapped by arithmetic: LLVM makes one load or store and one bswap of it, early enough that readers stay small
// and are inlined.
#![tactic(auto)]

ghost use Rattle.std.specs.Prelude.{◌≡◌, ◌+◌, ◌≤◌, length, get_or};
ghost use Rattle.field.specs.Field.{field, splice, be_bytes};
ghost use Rattle.field.specs.Low.{low, le_bytes};
ghost use Rattle.field.specs.code.Swap.{swapped};

/// The byte at `at`, 0 past the end: for a reader that does not know the length yet.
pub fn byte(s: &[u8], at: usize) -> u8
    ensures { result ≡ get_or s.now at 0 }
{
    if at < s.len() {
        return s[at];
    }
    0
}

pub fn get8(s: &[u8], at: usize) -> u8
    requires { at + 1 ≤ length s.now }
    ensures { result ≡ field s.now at 1 }
{
    s[at]
}

pub fn get16(s: &[u8], at: usize) -> u16
    requires { at + 2 ≤ length s.now }
    ensures { result ≡ field s.now at 2 }
{
    swap16(low16(s, at))
}

pub fn get32(s: &[u8], at: usize) -> u32
    requires { at + 4 ≤ length s.now }
    ensures { result ≡ field s.now at 4 }
{
    swap32(low32(s, at))
}

pub fn get64(s: &[u8], at: usize) -> u64
    requires { at + 8 ≤ length s.now }
    ensures { result ≡ field s.now at 8 }
{
    swap64(low64(s, at))
}

pub fn put8(s: &mut [u8], at: usize, v: u8)
    requires { at + 1 ≤ length s.old }
    ensures { s.new ≡ splice s.old at (be_bytes 1 v) }
{
    s[at] = v;
}

pub fn put16(s: &mut [u8], at: usize, v: u16)
    requires { at + 2 ≤ length s.old }
    ensures { s.new ≡ splice s.old at (be_bytes 2 v) }
{
    put_low16(s, at, swap16(v));
}

pub fn put32(s: &mut [u8], at: usize, v: u32)
    requires { at + 4 ≤ length s.old }
    ensures { s.new ≡ splice s.old at (be_bytes 4 v) }
{
    put_low32(s, at, swap32(v));
}

pub fn put64(s: &mut [u8], at: usize, v: u64)
    requires { at + 8 ≤ length s.old }
    ensures { s.new ≡ splice s.old at (be_bytes 8 v) }
{
    put_low64(s, at, swap64(v));
}

fn swap16(v: u16) -> u16
    ensures { result ≡ swapped 2 v }
{
    (v % 256) * 256 + v / 256
}

fn swap32(v: u32) -> u32
    ensures { result ≡ swapped 4 v }
{
    (v % 256) * 16777216 + (v / 256 % 256) * 65536 + (v / 65536 % 256) * 256 + v / 16777216
}

fn swap64(v: u64) -> u64
    ensures { result ≡ swapped 8 v }
{
    (swap32((v % 4294967296) as u32) as u64) * 4294967296 + (swap32((v / 4294967296) as u32) as u64)
}

fn low16(s: &[u8], at: usize) -> u16
    requires { at + 2 ≤ length s.now }
    ensures { result ≡ low s.now at 2 }
{
    (get8(s, at) as u16) + (get8(s, at + 1) as u16) * 256
}

/// Four bytes, the lowest first.
pub fn low32(s: &[u8], at: usize) -> u32
    requires { at + 4 ≤ length s.now }
    ensures { result ≡ low s.now at 4 }
{
    (low16(s, at) as u32) + (low16(s, at + 2) as u32) * 65536
}

/// Eight bytes, the lowest first.
pub fn low64(s: &[u8], at: usize) -> u64
    requires { at + 8 ≤ length s.now }
    ensures { result ≡ low s.now at 8 }
{
    (low32(s, at) as u64) + (low32(s, at + 4) as u64) * 4294967296
}

fn put_low16(s: &mut [u8], at: usize, v: u16)
    requires { at + 2 ≤ length s.old }
    ensures { s.new ≡ splice s.old at (le_bytes 2 v) }
{
    put8(s, at, (v % 256) as u8);
    put8(s, at + 1, (v / 256) as u8);
}

/// Writes four bytes, the lowest first.
pub fn put_low32(s: &mut [u8], at: usize, v: u32)
    requires { at + 4 ≤ length s.old }
    ensures { s.new ≡ splice s.old at (le_bytes 4 v) }
{
    put_low16(s, at, (v % 65536) as u16);
    put_low16(s, at + 2, (v / 65536) as u16);
}

/// Writes eight bytes, the lowest first.
pub fn put_low64(s: &mut [u8], at: usize, v: u64)
    requires { at + 8 ≤ length s.old }
    ensures { s.new ≡ splice s.old at (le_bytes 8 v) }
{
    put_low32(s, at, (v % 4294967296) as u32);
    put_low32(s, at + 4, (v / 4294967296) as u32);
}
