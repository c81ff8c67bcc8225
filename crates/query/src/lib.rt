// The calls that read a book.
#![tactic(auto)]

ghost use Rattle.std.specs.Prelude.{◌≡◌, cond};
ghost use Rattle.numbers.specs.Numbers.{answered, told_if_ok};
ghost use Rattle.calls.specs.Buffers.{read_out, order_out};
ghost use Rattle.calls.specs.Call.{call, protected, queried};
ghost use Rattle.query.specs.code.Asked.{marked_of, asked_of, measured_of, against_of};

use numbers::Refusal;
use opening::Book;
use page::Page;
use protection::Protection;
use ranking::Side;
use sweep::{Steps, Swept};

/// Reads a symbol's publication into the first 96 bytes of the buffer.
pub fn read(book: &[u8], symbol: &[u8], publication: &mut [u8]) -> Result<(), Refusal>
    ensures { record { number = answered result; publication = publication.new } ≡ read_out book.now symbol.now publication.old }
{
    if !opening::is_sound(book) {
        return Err(Refusal::NoBook);
    }
    if publication.len() < Book::PUBLICATION_LEN {
        return Err(Refusal::BufferShort);
    }
    let k = calls::listed(book, symbol)?;
    let at = Book::OPENING_LEN + k * Book::PAGE_LEN + Page::ENTRIES;
    let end = at + Book::PUBLICATION_LEN;
    writer::copy(publication, 0, &book[at..end]);
    Ok(())
}

/// What a query with a side mark asks of: the page of its symbol, and a side.
#[derive(Clone, Copy)]
pub struct Asked {
    pub page: usize,
    pub side: Side,
}

// B asks of the bids, S of the offers.
fn marked(mark: u8) -> Option<Side>
    ensures { result ≡ marked_of mark }
{
    match mark {
        b'B' => Some(Side::Bid),
        b'S' => Some(Side::Offer),
        _ => None,
    }
}

/// Checks 1, 10 and 74 of a query.
pub fn judge(book: &[u8], symbol: &[u8], mark: u8) -> Result<Asked, Refusal>
    ensures { result ≡ asked_of book.now symbol.now mark }
{
    let page = calls::known(book, symbol)?;
    let side = marked(mark).ok_or(Refusal::Side)?;
    Ok(Asked { page, side })
}

/// Whether a national candidate of the symbol bids the price or more (mark B), or offers it or less (mark S), by the quotes of its page. No
/// while the symbol is halted.
pub fn is_protected(book: &[u8], symbol: &[u8], mark: u8, price: u64) -> Result<Protection, Refusal>
    ensures { record { bytes = book.now; answer = queried (answered result) (told_if_ok result (λ t. cond t.yes 1 0)) (told_if_ok result (λ t. t.looked)) } ≡ call book.now (protected symbol.now mark price) }
{
    let asked = judge(book, symbol, mark)?;
    let a = Book::OPENING_LEN + asked.page * Book::PAGE_LEN;
    let e = a + Book::PAGE_LEN;
    Ok(protection::look(&book[a..e], asked.side, price))
}

// Checks 82 and 83.
fn measure(lots: u32, room: usize) -> Result<(), Refusal>
    ensures { answered result ≡ measured_of lots room }
{
    if lots == 0 {
        return Err(Refusal::Lots);
    }
    if 1_000_000 < lots {
        return Err(Refusal::Lots);
    }
    if room < Steps::LEN {
        return Err(Refusal::StepsShort);
    }
    Ok(())
}

// An order takes from the other side: B buys at the offers, S sells at the bids.
fn against(side: Side) -> Side
    ensures { result ≡ against_of side }
{
    match side {
        Side::Bid => Side::Offer,
        Side::Offer => Side::Bid,
    }
}

/// Plays an order of so many round lots on the symbol's page, at the offers (mark B) or at the bids (mark S), and lists its steps. None
/// while the symbol is halted.
pub fn try_order(
    book: &[u8],
    symbol: &[u8],
    mark: u8,
    lots: u32,
    steps: &mut [u8],
) -> Result<Swept, Refusal>
    ensures { record { number = answered result; found = told_if_ok result (λ s. s.steps); amount = told_if_ok result (λ s. s.unfilled); steps = steps.new } ≡ order_out book.now symbol.now mark lots steps.old }
{
    let order = judge(book, symbol, mark)?;
    measure(lots, steps.len())?;
    let start = Book::OPENING_LEN + order.page * Book::PAGE_LEN;
    let end = start + Book::PAGE_LEN;
    Ok(sweep::play(&book[start..end], against(order.side), lots, steps))
}
