// A message in the form of source document 000: the table of its forms, and the fields that every form has.
#![tactic(auto)]

ghost use Rattle.std.specs.Prelude.{◌≡◌, ◌+◌, ◌≤◌, ◌<◌, length};
ghost use Rattle.venueform.specs.Form.{layout_of, symbol_bytes, price_bytes, size_bytes, side_bytes, bid_at, clear_at, price_at, item_count, item_bytes, item_at};
ghost use Rattle.field.specs.Field.{field};

/// Where the fields of a message's header stand, and those of the long round-lot quote alone.
#[derive(Clone, Copy)]
pub struct Venue {}

impl Venue {
    pub const LENGTH: usize = 0;

    pub const CATEGORY: usize = 2;

    pub const TYPE: usize = 3;

    pub const PARTICIPANT: usize = 4;

    pub const SECONDS: usize = 5;

    pub const NANOS: usize = 9;

    pub const ID: usize = 13;

    pub const RESERVED: usize = 14;

    pub const REFERENCE: usize = 18;

    pub const HEADER: usize = 26;

    pub const CONDITION: usize = 37;

    pub const RETAIL: usize = 62;

    pub const SETTLEMENT: usize = 63;

    pub const MARKET: usize = 64;

    pub const MAKER: usize = 65;

    pub const INDICATOR: usize = 69;

    pub const SECOND_TIME: usize = 70;

    pub const SECOND_NANOS: usize = 74;
}

/// A form of quote: round lot or odd lot, long or short.
#[derive(Clone, Copy, Debug, PartialEq, Eq)]
pub struct Form {
    pub round: bool,
    pub long: bool,
}

/// The form of the quote that a message is, by its category and type; of any other message the header alone is read. Any bytes.
#[tactic(auto, unfolding(crate::specs::Form::layout_of))]
pub fn layout_of(msg: &[u8]) -> Option<Form>
    ensures { result ≡ layout_of msg.now }
{
    if field::byte(msg, Venue::CATEGORY) != b'Q' {
        return None;
    }
    match field::byte(msg, Venue::TYPE) {
        b'P' => Some(Form {
            round: true,
            long: false,
        }),
        b'K' => Some(Form {
            round: true,
            long: true,
        }),
        b'R' => Some(Form {
            round: false,
            long: false,
        }),
        b'M' => Some(Form {
            round: false,
            long: true,
        }),
        _ => None,
    }
}

// ---- the table's columns

pub fn symbol_len(form: Form) -> usize
    ensures { (result ≡ symbol_bytes form) × (result ≤ 11) }
{
    if form.long { 11 } else { 5 }
}

pub fn price_len(form: Form) -> usize
    ensures { (result ≡ price_bytes form) × (result ≤ 8) }
{
    if form.long { 8 } else { 2 }
}

pub fn side_len(form: Form) -> usize
    ensures { (result ≡ side_bytes form) × (result ≤ 12) }
{
    if form.long { 12 } else { 4 }
}

pub fn bid_at(form: Form) -> usize
    ensures { (result ≡ bid_at form) × (result ≤ 38) }
{
    if form.long { 38 } else { 31 }
}

pub fn clear_at(form: Form) -> usize
    ensures { (result ≡ clear_at form) × (result ≤ 78) }
{
    match (form.round, form.long) {
        (true, false) => 39,
        (true, true) => 78,
        (false, false) => 31,
        (false, true) => 37,
    }
}

// ---- fields

/// The price at `at`, in millionths.
pub fn price(msg: &[u8], at: usize, form: Form) -> u64
    requires { at + price_bytes form ≤ length msg.now }
    ensures { result ≡ price_at form msg.now at }
{
    if form.long {
        return field::get64(msg, at);
    }
    u64::from(field::get16(msg, at)) * 10000
}

/// The round-lot size at `at`, in shares.
pub fn shares(msg: &[u8], at: usize, form: Form) -> u32
    requires { at + size_bytes form ≤ length msg.now }
    ensures { result ≡ field msg.now at (size_bytes form) }
{
    if form.long {
        return field::get32(msg, at);
    }
    u32::from(field::get16(msg, at))
}

/// How many appendages the counts tell, bids and offers together. Any bytes.
pub fn item_count(msg: &[u8], form: Form) -> usize
    ensures { (result ≡ item_count form msg.now) × (result ≤ 510) }
{
    let clear = clear_at(form);
    usize::from(field::byte(msg, clear + 1)) + usize::from(field::byte(msg, clear + 2))
}

/// Where appendage i starts.
pub fn item_at(form: Form, i: usize) -> usize
    requires { i ≤ 510 }
    ensures { (result ≡ item_at form i) × (result ≤ 4671) }
{
    if form.long {
        return clear_at(form) + 3 + 9 * i;
    }
    clear_at(form) + 3 + 3 * i
}
