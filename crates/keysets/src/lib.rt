// Numbers of four bytes side by side in lent bytes, one for each letter: the highest of them, and which of them are equal to a number or above it.
// Such a set of places is a number, with place i in bit i. The loops have no branch in them and one addition for each place, which LLVM makes a few
// vector instructions.
#![tactic(auto)]

ghost use Rattle.std.specs.Prelude.{◌≡◌, true, cond, ◌+◌, ◌-◌, ◌^◌, ◌≤◌, ◌<◌, eqb, ltb, length};
ghost use Rattle.keysets.specs.Sets.{NoneAbove, has, key_at, key_count, keys_length, lowest_of, set_of, with_member};

/// How many numbers stand side by side, and their bytes. specs/Sets.antt says the same.
#[derive(Clone, Copy)]
pub struct Keys {}

impl Keys {
    pub const COUNT: usize = 26;

    pub const KEY_LEN: usize = 4;

    pub const LEN: usize = Keys::COUNT * Keys::KEY_LEN;
}

/// The higher of two numbers.
pub fn higher(a: u32, b: u32) -> u32
    ensures { (a ≤ result) × (b ≤ result) }
{
    a.max(b)
}

/// The highest of the numbers from `at` on: none is above it.
pub fn top(page: &[u8], at: usize) -> u32
    requires { at + keys_length ≤ length page.now }
    ensures { NoneAbove (key_at page.now at) key_count result }
{
    let mut m: u32 = 0;
    for i in 0..Keys::COUNT {
        m = higher(m, field::low32(page, at + Keys::KEY_LEN * i));
    }
    m
}

// What a place adds to a set: its bit, if it is a member.
fn weight_if(t: bool, i: u32) -> u32
    requires { i < key_count }
    ensures { result ≡ cond t (2 ^ i) 0 }
{
    if t {
        return 1 << i;
    }
    0
}

// `same` and `above` differ in their test alone. One function with a closure would have to promise the set of each test that the closure computes,
// which is no plainer than two loops of one line.

/// The places of the numbers that are `k`.
pub fn same(page: &[u8], at: usize, k: u32) -> u32
    requires { at + keys_length ≤ length page.now }
    ensures { result ≡ set_of (λ i. eqb (key_at page.now at i) k) key_count }
{
    let mut m: u32 = 0;
    for i in 0..Keys::COUNT {
        m = m + weight_if(field::low32(page, at + Keys::KEY_LEN * i) == k, i as u32);
    }
    m
}

/// The places of the numbers above `k`.
pub fn above(page: &[u8], at: usize, k: u32) -> u32
    requires { at + keys_length ≤ length page.now }
    ensures { result ≡ set_of (λ i. ltb k (key_at page.now at i)) key_count }
{
    let mut m: u32 = 0;
    for i in 0..Keys::COUNT {
        m = m + weight_if(k < field::low32(page, at + Keys::KEY_LEN * i), i as u32);
    }
    m
}

/// The set with `i` in it.
pub fn with_member(set: u32, i: u32) -> u32
    requires { (set < 2 ^ key_count) × (i < key_count) }
    ensures { (result ≡ with_member set i) × (result < 2 ^ key_count) }
{
    if (set >> i) % 2 == 0 {
        return set + (1 << i);
    }
    set
}

/// The lowest member of a set that has one.
pub fn lowest(set: u32) -> u32
    requires { (0 < set) × (set < 2 ^ key_count) }
    ensures { (result ≡ lowest_of set) × (result < key_count) }
{
    u32::trailing_zeros(set)
}

/// The set without its member `i`.
pub fn without(set: u32, i: u32) -> u32
    requires { has set i ≡ true }
    ensures { result ≡ set - 2 ^ i }
{
    set - (1 << i)
}
