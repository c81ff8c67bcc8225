// The reader of one message. It sees that message's bytes and the letter of its line, and nothing else.
#![tactic(auto)]

ghost use Rattle.std.specs.Prelude.{◌≡◌, cond, ◌+◌, ◌*◌, ◌≤◌, ◌<◌, length};
ghost use Rattle.lists.specs.Lists.{at, member};
ghost use Rattle.text.specs.Form.{maker_good};
ghost use Rattle.message.specs.Message.{control_kind, quote_kind, kind_of, level_at, quote_at, odd_at, round_conditions, maker_conditions, side_bad, price_fault, test_bytes, read_inquiry, read_test, read_finra, read_round_lot, misplaced, read_odd_lot, read_maker, status_kind, statuses, read_status, message_of};
ghost use Rattle.levels.specs.Levels.{item_length};

use levels::Item;
use quote::{Level, Quote};
use text::{Maker, Symbol};

/// Where each field of a message stands.
#[derive(Clone, Copy)]
pub struct Layout {}

impl Layout {
    pub const CATEGORY: usize = 0;

    pub const TYPE: usize = 1;

    pub const LETTER: usize = 2;

    pub const ZERO: usize = 3;

    pub const TIME: usize = 4;
    /// Bytes of a header, and of C I, C T, C C and C O.
    pub const HEADER: usize = 20;
    /// C 5: 95 bytes more than a header.
    pub const TEST_LEN: usize = Layout::HEADER + 95;
    /// Its first byte, a space.
    pub const TEST_FIRST: usize = 32;

    pub const SYMBOL: usize = Layout::HEADER;

    pub const CONDITION: usize = Layout::SYMBOL + Symbol::LEN;

    pub const BID: usize = 32;

    pub const OFFER: usize = 44;
    /// Q K: clear mark, behind it the two counts, a zero, then the items.
    pub const ROUND_LOT_CLEAR: usize = 56;

    pub const ROUND_LOT_ZERO: usize = 59;

    pub const ROUND_LOT_ITEMS: usize = 60;
    /// Q M and Q T: clear mark, behind it the two counts, two zeros, then the items.
    pub const ODD_LOT_CLEAR: usize = 31;

    pub const ODD_LOT_ZEROS: usize = 34;

    pub const ODD_LOT_ITEMS: usize = 36;
    /// Q U.
    pub const MAKER: usize = 56;

    pub const MAKER_LEN: usize = Layout::MAKER + Maker::LEN;
    /// T S.
    pub const STATUS: usize = Layout::SYMBOL + Symbol::LEN;

    pub const STATUS_LEN: usize = Layout::STATUS + 1;
}

/// The type of a message. C I and C T are alike.
#[derive(Clone, Copy, Debug, PartialEq, Eq)]
pub enum Kind {
    Inquiry,
    Close,
    Open,
    Test,
    RoundLot,
    /// Q M, or with the same layout FINRA's Q T.
    OddLot { finra: bool },
    Maker,
    /// T S.
    Status,
    Unknown,
}

/// The odd part of a message: its clear mark, the counts of its items, the timestamp, and where in the message its items start.
#[derive(Clone, Copy)]
pub struct OddPart {
    pub mark: u8,
    pub bids: usize,
    pub offers: usize,
    pub time: u64,
    pub items: usize,
}

/// What a message says. A fault is the code that the message gets if its symbol is listed, 0 for none.
#[derive(Clone, Copy)]
pub enum Message {
    /// Rejected with this code, 40 to 45, whatever the book holds.
    Refused(u8),
    /// C I, C T or C 5: accepted, and does nothing.
    Idle,
    /// FINRA Close or Open: the condition that every standing maker quote gets, L or R.
    Finra(u8),
    RoundLot {
        fault: u8,
        quote: Quote,
        odd: OddPart,
    },
    OddLot(OddPart),
    Maker {
        fault: u8,
        name: u32,
        quote: Quote,
    },
    /// Trading status: the byte that the message has for it, judged when its symbol is found.
    Status(u8),
}

/// Checks 40 to 48 as far as the message and the letter of its line tell, and what the message says. Any bytes, any length.
#[tactic(auto, unfolding(crate::specs::Message::message_of))]
pub fn read(msg: &[u8], letter: u8) -> Message
    ensures { result ≡ message_of letter msg.now }
{
    let kind = kind_of(msg);
    if kind == Kind::Unknown {
        return Message::Refused(40);
    }
    if field::byte(msg, Layout::LETTER) != letter {
        return Message::Refused(41);
    }
    match kind {
        Kind::Inquiry => read_inquiry(msg),
        Kind::Close => read_finra(msg, letter, b'L'),
        Kind::Open => read_finra(msg, letter, b'R'),
        Kind::Test => read_test(msg),
        Kind::RoundLot => read_round_lot(msg, letter),
        Kind::OddLot { finra } => read_odd_lot(msg, letter, finra),
        Kind::Maker => read_maker(msg, letter),
        Kind::Status => read_status(msg),
        Kind::Unknown => Message::Refused(40),
    }
}

#[tactic(auto, unfolding(crate::specs::Message::kind_of))]
fn kind_of(msg: &[u8]) -> Kind
    ensures { result ≡ kind_of msg.now }
{
    let kind = field::byte(msg, Layout::TYPE);
    match field::byte(msg, Layout::CATEGORY) {
        b'C' => control_kind(kind),
        b'Q' => quote_kind(kind),
        b'T' => status_kind(kind),
        _ => Kind::Unknown,
    }
}

#[tactic(auto, unfolding(crate::specs::Message::control_kind, lists::specs::Lists::member))]
fn control_kind(kind: u8) -> Kind
    ensures { result ≡ control_kind kind }
{
    match kind {
        b'I' | b'T' => Kind::Inquiry,
        b'C' => Kind::Close,
        b'O' => Kind::Open,
        b'5' => Kind::Test,
        _ => Kind::Unknown,
    }
}

#[tactic(auto, unfolding(crate::specs::Message::quote_kind))]
fn quote_kind(kind: u8) -> Kind
    ensures { result ≡ quote_kind kind }
{
    match kind {
        b'K' => Kind::RoundLot,
        b'M' => Kind::OddLot { finra: false },
        b'T' => Kind::OddLot { finra: true },
        b'U' => Kind::Maker,
        _ => Kind::Unknown,
    }
}

#[tactic(auto, unfolding(crate::specs::Message::status_kind))]
fn status_kind(kind: u8) -> Kind
    ensures { result ≡ status_kind kind }
{
    match kind {
        b'S' => Kind::Status,
        _ => Kind::Unknown,
    }
}

#[tactic(auto, unfolding(crate::specs::Message::read_inquiry))]
fn read_inquiry(msg: &[u8]) -> Message
    ensures { result ≡ read_inquiry msg.now }
{
    if msg.len() != Layout::HEADER {
        return Message::Refused(42);
    }
    if field::byte(msg, Layout::ZERO) != 0 {
        return Message::Refused(43);
    }
    Message::Idle
}

#[tactic(auto, unfolding(crate::specs::Message::read_test))]
fn read_test(msg: &[u8]) -> Message
    ensures { result ≡ read_test msg.now }
{
    if msg.len() != Layout::TEST_LEN {
        return Message::Refused(42);
    }
    if field::byte(msg, Layout::ZERO) != 0 || !is_test(msg) {
        return Message::Refused(43);
    }
    Message::Idle
}

// Whether 95 bytes behind the header are hex 20 to 7E in order.
fn is_test(msg: &[u8]) -> bool
    requires { length msg.now ≡ 115 }
    ensures { result ≡ test_bytes msg.now }
{
    // i is both the place and, from a space on, the byte that stands there
    for i in 0..95 {
        if usize::from(msg[Layout::HEADER + i]) != Layout::TEST_FIRST + i {
            return false;
        }
    }
    true
}

#[tactic(auto, unfolding(crate::specs::Message::read_finra))]
fn read_finra(msg: &[u8], letter: u8, condition: u8) -> Message
    ensures { result ≡ read_finra condition letter msg.now }
{
    if msg.len() != Layout::HEADER {
        return Message::Refused(42);
    }
    if field::byte(msg, Layout::ZERO) != 0 {
        return Message::Refused(43);
    }
    if letter == b'D' {
        return Message::Finra(condition);
    }
    Message::Refused(44)
}

#[tactic(auto, unfolding(crate::specs::Message::read_round_lot, crate::specs::Message::odd_at, crate::specs::Message::quote_fault, field::specs::Field::part))]
fn read_round_lot(msg: &[u8], letter: u8) -> Message
    ensures { result ≡ read_round_lot letter msg.now }
{
    if msg.len() != odd_length(msg, Layout::ROUND_LOT_CLEAR, Layout::ROUND_LOT_ITEMS) {
        return Message::Refused(42);
    }
    if field::byte(msg, Layout::ZERO) != 0 || field::byte(msg, Layout::ROUND_LOT_ZERO) != 0 {
        return Message::Refused(43);
    }
    if letter == b'D' {
        return Message::Refused(44);
    }
    if text::is_symbol(&msg[Layout::SYMBOL..Layout::CONDITION]) {
        let quote = quote_at(msg);
        let odd = odd_at(msg, Layout::ROUND_LOT_CLEAR, Layout::ROUND_LOT_ITEMS);
        let fault = quote_fault(quote, is_round_condition(quote.condition), 0);
        return Message::RoundLot { fault, quote, odd };
    }
    Message::Refused(45)
}

// Q M, or FINRA's Q T.
#[tactic(auto, unfolding(crate::specs::Message::read_odd_lot, crate::specs::Message::odd_at, field::specs::Field::part))]
fn read_odd_lot(msg: &[u8], letter: u8, finra: bool) -> Message
    ensures { result ≡ read_odd_lot finra letter msg.now }
{
    if msg.len() != odd_length(msg, Layout::ODD_LOT_CLEAR, Layout::ODD_LOT_ITEMS) {
        return Message::Refused(42);
    }
    if field::byte(msg, Layout::ZERO) != 0
        || field::byte(msg, Layout::ODD_LOT_ZEROS) != 0
        || field::byte(msg, Layout::ODD_LOT_ZEROS + 1) != 0
    {
        return Message::Refused(43);
    }
    if is_misplaced(letter, finra) {
        return Message::Refused(44);
    }
    if text::is_symbol(&msg[Layout::SYMBOL..Layout::CONDITION]) {
        let odd = odd_at(msg, Layout::ODD_LOT_CLEAR, Layout::ODD_LOT_ITEMS);
        return Message::OddLot(odd);
    }
    Message::Refused(45)
}

// An odd lot on a line that is not its own: FINRA's belong on D's, all others off it.
fn is_misplaced(letter: u8, finra: bool) -> bool
    ensures { result ≡ misplaced finra letter }
{
    if finra {
        return letter != b'D';
    }
    letter == b'D'
}

#[tactic(auto, unfolding(crate::specs::Message::read_maker, crate::specs::Message::maker_name, crate::specs::Message::quote_fault, field::specs::Field::part))]
fn read_maker(msg: &[u8], letter: u8) -> Message
    ensures { result ≡ read_maker letter msg.now }
{
    if msg.len() != Layout::MAKER_LEN {
        return Message::Refused(42);
    }
    if field::byte(msg, Layout::ZERO) != 0 {
        return Message::Refused(43);
    }
    if letter != b'D' {
        return Message::Refused(44);
    }
    if text::is_symbol(&msg[Layout::SYMBOL..Layout::CONDITION]) {
        let quote = quote_at(msg);
        let name = field::get32(msg, Layout::MAKER);
        let rest = name_fault(&msg[Layout::MAKER..Layout::MAKER_LEN]);
        let fault = quote_fault(quote, is_maker_condition(quote.condition), rest);
        return Message::Maker { fault, name, quote };
    }
    Message::Refused(45)
}

// T S, on any line.
#[tactic(auto, unfolding(crate::specs::Message::read_status, field::specs::Field::part))]
fn read_status(msg: &[u8]) -> Message
    ensures { result ≡ read_status msg.now }
{
    if msg.len() != Layout::STATUS_LEN {
        return Message::Refused(42);
    }
    if field::byte(msg, Layout::ZERO) != 0 {
        return Message::Refused(43);
    }
    if text::is_symbol(&msg[Layout::SYMBOL..Layout::STATUS]) {
        return Message::Status(field::byte(msg, Layout::STATUS));
    }
    Message::Refused(45)
}

/// Whether a trading status is H, halted, or T, trading.
#[tactic(auto, unfolding(lists::specs::Lists::member))]
pub fn is_status(status: u8) -> bool
    ensures { result ≡ member statuses status }
{
    matches!(status, b'H' | b'T')
}

// The length that the counts behind a clear mark ask for, the items starting at `items`.
fn odd_length(msg: &[u8], clear: usize, items: usize) -> usize
    requires { (clear < 1000) × (items < 1000) }
    ensures { result ≡ items + item_length * (at msg.now (clear + 1) + at msg.now (clear + 2)) }
{
    let bids = usize::from(field::byte(msg, clear + 1));
    let offers = usize::from(field::byte(msg, clear + 2));
    items + Item::LEN * (bids + offers)
}

#[tactic(auto, unfolding(crate::specs::Message::odd_at, crate::specs::Message::time_of))]
fn odd_at(msg: &[u8], clear: usize, items: usize) -> OddPart
    requires { (clear < 1000) × (12 ≤ length msg.now) }
    ensures { result ≡ odd_at msg.now clear items }
{
    OddPart {
        mark: field::byte(msg, clear),
        bids: usize::from(field::byte(msg, clear + 1)),
        offers: usize::from(field::byte(msg, clear + 2)),
        time: field::get64(msg, Layout::TIME),
        items,
    }
}

// Price and size from `side` on, with the message's time.
#[tactic(auto, unfolding(crate::specs::Message::level_at, crate::specs::Message::time_of))]
fn level_at(msg: &[u8], side: usize) -> Level
    requires { (12 ≤ side) × (side + 12 ≤ length msg.now) }
    ensures { result ≡ level_at msg.now side }
{
    Level {
        price: field::get64(msg, side),
        size: field::get32(msg, side + 8),
        time: field::get64(msg, Layout::TIME),
    }
}

#[tactic(auto, unfolding(crate::specs::Message::quote_at))]
fn quote_at(msg: &[u8]) -> Quote
    requires { 56 ≤ length msg.now }
    ensures { result ≡ quote_at msg.now }
{
    Quote {
        condition: field::get8(msg, Layout::CONDITION),
        bid: level_at(msg, Layout::BID),
        offer: level_at(msg, Layout::OFFER),
    }
}

// 46 for a condition that the type doesn't take, 47, then what follows.
#[tactic(auto, unfolding(crate::specs::Message::price_fault))]
fn quote_fault(q: Quote, takes: bool, rest: u8) -> u8
    ensures { result ≡ cond takes (price_fault q rest) 46 }
{
    if !takes {
        return 46;
    }
    if is_side_bad(q.bid) || is_side_bad(q.offer) {
        return 47;
    }
    rest
}

// 48 for a maker that is not A to Z, at least one, then spaces.
fn name_fault(s: &[u8]) -> u8
    ensures { result ≡ cond (maker_good s.now) 0 48 }
{
    if text::is_maker(s) { 0 } else { 48 }
}

// Price 0 with a size.
fn is_side_bad(l: Level) -> bool
    ensures { result ≡ side_bad l }
{
    l.price == 0 && 0 < l.size
}

/// Whether a Q K takes the condition.
#[tactic(auto, unfolding(lists::specs::Lists::member))]
pub fn is_round_condition(condition: u8) -> bool
    ensures { result ≡ member round_conditions condition }
{
    matches!(
        condition,
        b'A' | b'B' | b'C' | b'E' | b'F' | b'H' | b'N' | b'O' | b'R' | b'U' | b'W'
    )
}

#[tactic(auto, unfolding(lists::specs::Lists::member))]
fn is_maker_condition(condition: u8) -> bool
    ensures { result ≡ member maker_conditions condition }
{
    matches!(condition, b'L' | b'R')
}
