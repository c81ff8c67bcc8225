// A quote: a condition and two sides of price, size and time, in memory and in bytes.
#![tactic(auto)]

ghost use Rattle.std.specs.Prelude.{◌≡◌, ◌+◌, ◌≤◌, length};
ghost use Rattle.field.specs.Field.{part, splice};
ghost use Rattle.quote.specs.Quote.{level_length, quote_length, is_quoted, admits, is_bid, with_time, time_kept, quote_over, level_in, level_bytes, quote_in, quote_bytes};

use ranking::Side;

/// One side of a quote, or one odd-lot level. Sizes are round lots in a quote and shares in a level.
#[derive(Clone, Copy)]
pub struct Level {
    pub price: u64,
    pub size: u32,
    pub time: u64,
}

impl Level {
    /// Bytes of a level: price 8, size 4, time 8, each in the order of the machine, so that a price is read by one load.
    pub const LEN: usize = 20;

    const SIZE: usize = 8;

    const TIME: usize = 12;
    /// No level: price 0.
    pub const NONE: Level = Level {
        price: 0,
        size: 0,
        time: 0,
    };

    /// The level that stands in a page at `at`.
    pub fn get(page: &[u8], at: usize) -> Level
        requires { at + level_length ≤ length page.now }
        ensures { result ≡ level_in (part page.now at level_length) }
    {
        Level {
            price: field::low64(page, at),
            size: field::low32(page, at + Level::SIZE),
            time: field::low64(page, at + Level::TIME),
        }
    }

    /// Writes the level into a page at `at`.
    pub fn put(self, page: &mut [u8], at: usize)
        requires { at + level_length ≤ length page.old }
        ensures { page.new ≡ splice page.old at (level_bytes self) }
    {
        field::put_low64(page, at, self.price);
        field::put_low32(page, at + Level::SIZE, self.size);
        field::put_low64(page, at + Level::TIME, self.time);
    }

    // The time of a new side over the one that stands: of the same price and a size no larger, it keeps the time.
    fn time_over(self, standing: Level) -> u64
        ensures { result ≡ time_kept standing self }
    {
        if self.price == standing.price && self.size <= standing.size {
            standing.time
        } else {
            self.time
        }
    }

    // A new side over the one that stands.
    fn over(self, standing: Level) -> Level
        ensures { result ≡ with_time (time_kept standing self) self }
    {
        Level {
            time: self.time_over(standing),
            ..self
        }
    }
}

/// A round-lot quote of a letter or a maker.
#[derive(Clone, Copy)]
pub struct Quote {
    pub condition: u8,
    pub bid: Level,
    pub offer: Level,
}

impl Quote {
    /// Bytes of a quote: condition 1, bid, offer.
    pub const LEN: usize = Quote::OFFER + Level::LEN;

    pub const BID: usize = 1;

    pub const OFFER: usize = Quote::BID + Level::LEN;
    /// The condition of no quote, which Start of Day leaves.
    pub const NO_CONDITION: u8 = 0;

    /// The quote that stands in a page at `at`.
    pub fn get(page: &[u8], at: usize) -> Quote
        requires { at + quote_length ≤ length page.now }
        ensures { result ≡ quote_in (part page.now at quote_length) }
    {
        Quote {
            condition: field::get8(page, at),
            bid: Level::get(page, at + Quote::BID),
            offer: Level::get(page, at + Quote::OFFER),
        }
    }

    /// Writes the quote into a page at `at`.
    pub fn put(self, page: &mut [u8], at: usize)
        requires { at + quote_length ≤ length page.old }
        ensures { page.new ≡ splice page.old at (quote_bytes self) }
    {
        let bid = self.bid;
        let offer = self.offer;
        field::put8(page, at, self.condition);
        bid.put(page, at + Quote::BID);
        offer.put(page, at + Quote::OFFER);
    }

    /// A new quote over the one that stands: each side has its own time.
    pub fn over(self, standing: Quote) -> Quote
        ensures { result ≡ quote_over standing self }
    {
        let bid = self.bid;
        let offer = self.offer;
        Quote {
            condition: self.condition,
            bid: bid.over(standing.bid),
            offer: offer.over(standing.offer),
        }
    }

    /// Writes the quote over the one that stands in a page at `at`.
    pub fn put_over(self, page: &mut [u8], at: usize)
        requires { at + quote_length ≤ length page.old }
        ensures { page.new ≡ splice page.old at (quote_bytes (quote_over (quote_in (part page.old at quote_length)) self)) }
    {
        let standing = Quote::get(page, at);
        let new = self.over(standing);
        new.put(page, at);
    }
}

/// Whether a condition is that of a quote: a letter whose condition is another has none since Start of Day.
pub fn is_quoted(condition: u8) -> bool
    ensures { result ≡ is_quoted condition }
{
    condition != Quote::NO_CONDITION
}

/// Whether a condition admits a side: A, B, H, O, R, W both, E the offer, F the bid, every other byte neither.
pub fn admits(side: Side, condition: u8) -> bool
    ensures { result ≡ admits side condition }
{
    let bid = is_bid(side);
    match condition {
        b'A' | b'B' | b'H' | b'O' | b'R' | b'W' => true,
        b'E' => !bid,
        b'F' => bid,
        _ => false,
    }
}

fn is_bid(side: Side) -> bool
    ensures { result ≡ is_bid side }
{
    matches!(side, Side::Bid)
}
