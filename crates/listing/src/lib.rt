// Functions of the rooms below, exported one by one so that their machine code can be read. Nothing links against this crate.
#![tactic(auto)]

ghost use Rattle.std.specs.Prelude.{◌+◌, ◌≤◌, length};
ghost use Rattle.keysets.specs.Sets.{keys_length};

#[unsafe(no_mangle)]
pub extern "C" fn listing_get16(s: &[u8], at: usize) -> u16
    requires { at + 2 ≤ length s.now }
{
    field::get16(s, at)
}

#[unsafe(no_mangle)]
pub extern "C" fn listing_get32(s: &[u8], at: usize) -> u32
    requires { at + 4 ≤ length s.now }
{
    field::get32(s, at)
}

#[unsafe(no_mangle)]
pub extern "C" fn listing_get64(s: &[u8], at: usize) -> u64
    requires { at + 8 ≤ length s.now }
{
    field::get64(s, at)
}

#[unsafe(no_mangle)]
pub extern "C" fn listing_put16(s: &mut [u8], at: usize, v: u16)
    requires { at + 2 ≤ length s.old }
{
    field::put16(s, at, v);
}

#[unsafe(no_mangle)]
pub extern "C" fn listing_put32(s: &mut [u8], at: usize, v: u32)
    requires { at + 4 ≤ length s.old }
{
    field::put32(s, at, v);
}

#[unsafe(no_mangle)]
pub extern "C" fn listing_put64(s: &mut [u8], at: usize, v: u64)
    requires { at + 8 ≤ length s.old }
{
    field::put64(s, at, v);
}

#[unsafe(no_mangle)]
pub extern "C" fn listing_checksum(block: &[u8]) -> u16
    requires { (10 ≤ length block.now) × (length block.now ≤ 1000) }
{
    block::checksum(block)
}

#[unsafe(no_mangle)]
pub extern "C" fn listing_check_block(block: &[u8]) -> u8 {
    match block::check_block(block) {
        Ok(_) => 0,
        Err(refusal) => refusal.number(),
    }
}

#[unsafe(no_mangle)]
pub extern "C" fn listing_top(page: &[u8], at: usize) -> u32
    requires { at + keys_length ≤ length page.now }
{
    keysets::top(page, at)
}

#[unsafe(no_mangle)]
pub extern "C" fn listing_same(page: &[u8], at: usize, k: u32) -> u32
    requires { at + keys_length ≤ length page.now }
{
    keysets::same(page, at, k)
}

#[unsafe(no_mangle)]
pub extern "C" fn listing_above(page: &[u8], at: usize, k: u32) -> u32
    requires { at + keys_length ≤ length page.now }
{
    keysets::above(page, at, k)
}
