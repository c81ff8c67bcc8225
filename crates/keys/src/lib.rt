// Keys: the prices of a page once more, in four bytes each and side by side, so that the walk compares those of all letters at once.
#![tactic(auto)]

ghost use Rattle.std.specs.Prelude.{◌≡◌};
ghost use Rattle.keys.specs.Keys.{key_of, level_key, side_key, bar_of};

use quote::Level;
use ranking::Side;

/// A key's bytes, and the key of every price that four bytes can't hold.
#[derive(Clone, Copy)]
pub struct Keys {}

impl Keys {
    pub const LEN: usize = 4;

    pub const FULL: u64 = 4294967295;
}

/// The key of a price: the higher ranks first on either side; none is 0.
pub fn key(side: Side, price: u64) -> u32
    ensures { result ≡ key_of side price }
{
    let short = price.min(Keys::FULL) as u32;
    match side {
        Side::Bid => short,
        Side::Offer => std::num::wrapping_sub_u32(0, short),
    }
}

/// The key of a level: 0 if it has no price or no shares.
pub fn level_key(side: Side, level: Level) -> u32
    ensures { result ≡ level_key side level }
{
    if level.size == 0 {
        return 0;
    }
    key(side, level.price)
}

/// The key of a side of a quote under a condition: 0 if that side does not count.
pub fn quote_key(side: Side, condition: u8, level: Level) -> u32
    ensures { result ≡ side_key side condition level }
{
    if quote::admits(side, condition) {
        return level_key(side, level);
    }
    0
}

/// The highest key that no price beyond this one has.
pub fn bar(side: Side, price: u64) -> u32
    ensures { result ≡ bar_of side price }
{
    let key = key(side, price);
    if price < Keys::FULL {
        return key;
    }
    key - 1
}
