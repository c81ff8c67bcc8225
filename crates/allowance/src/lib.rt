// One allowance for all lines: whether a line's share and the spare are used, and the charge of a block. The bytes lent are the allowance's part
// of the opening: B, the shares, the charges.
#![tactic(auto)]

ghost use Rattle.std.specs.Prelude.{◌≡◌, ◌+◌, ◌<◌, length};
ghost use Rattle.field.specs.Field.{field};
ghost use Rattle.lists.specs.Lists.{sum};
ghost use Rattle.numbers.specs.Numbers.{answered};
ghost use Rattle.allowance.specs.Allowance.{allowance_in, allowance_length, charged_bytes, is_used_up, setting_number, share_count, spare_charged, spare_used};

use numbers::Refusal;

/// Where B, the shares and the charges stand in these bytes. specs/Allowance.antt says the same.
#[derive(Clone, Copy)]
pub struct Allowance {}

impl Allowance {
    pub const LINES: usize = 64;

    pub const SHARES: usize = 1;

    pub const CHARGES: usize = Allowance::SHARES + Allowance::LINES;

    pub const LEN: usize = Allowance::CHARGES + Allowance::LINES;

    pub const BLOCKS_MAX: u32 = 255;
}

/// Check 86: the line's share is used, and the spare is.
pub fn is_used_up(bytes: &[u8], line: usize) -> bool
    requires { (length bytes.now ≡ allowance_length) × (line < share_count) }
    ensures { result ≡ is_used_up (allowance_in bytes.now) line }
{
    let blocks = field::get8(bytes, 0);
    if blocks == 0 {
        return false;
    }
    let share = field::get8(bytes, Allowance::SHARES + line);
    share <= field::get8(bytes, Allowance::CHARGES + line) && is_spare_used(bytes, blocks)
}

// B is no more than what is promised to the lines or used.
fn is_spare_used(bytes: &[u8], blocks: u8) -> bool
    requires { (length bytes.now ≡ allowance_length) × (blocks ≡ field bytes.now 0 1) }
    ensures { result ≡ spare_used (allowance_in bytes.now) }
{
    let shares = &bytes[Allowance::SHARES..Allowance::CHARGES];
    let charges = &bytes[Allowance::CHARGES..Allowance::LEN];
    u32::from(blocks) <= kept(shares, charges)
}

// Share or charge of each line, whichever is larger: what is promised to the lines or used.
fn kept(shares: &[u8], charges: &[u8]) -> u32
    requires { (length shares.now ≡ share_count) × (length charges.now ≡ share_count) }
    ensures { result ≡ sum shares.now + spare_charged shares.now charges.now }
{
    shares
        .iter()
        .zip(charges)
        .map(|(&share, &charge)| u32::from(share.max(charge)))
        .sum()
}

/// Charges a block to a line, if an allowance is set.
pub fn charge(bytes: &mut [u8], line: usize)
    requires { (length bytes.old ≡ allowance_length) × (line < share_count) }
    ensures { bytes.new ≡ charged_bytes bytes.old line }
{
    if field::get8(bytes, 0) == 0 {
        return;
    }
    let at = Allowance::CHARGES + line;
    let count = field::get8(bytes, at);
    field::put8(bytes, at, count.wrapping_add(1));
}

/// Checks 84 and 85 of a setting.
pub fn judge(blocks: u32, shares: &[u8]) -> Result<(), Refusal>
    ensures { answered result ≡ setting_number blocks shares.now }
{
    if blocks < 1 {
        return Err(Refusal::Allowance);
    }
    if Allowance::BLOCKS_MAX < blocks {
        return Err(Refusal::Allowance);
    }
    if shares.len() != Allowance::LINES {
        return Err(Refusal::Shares);
    }
    if blocks < total(shares) {
        return Err(Refusal::Shares);
    }
    Ok(())
}

// The sum of the 64 shares.
fn total(shares: &[u8]) -> u32
    requires { length shares.now ≡ share_count }
    ensures { result ≡ sum shares.now }
{
    shares.iter().map(|&share| u32::from(share)).sum()
}
