// A message worked on a book, and a block of them.
#![tactic(auto)]

ghost use Rattle.std.specs.Prelude.{◌≡◌, true, ◌+◌, ◌*◌, ◌-◌, ◌≤◌, ◌<◌, length};
ghost use Rattle.lists.specs.Lists.{upper};
ghost use Rattle.block.specs.Block.{checked, answer_length};
ghost use Rattle.message.specs.Message.{message_of};
ghost use Rattle.opening.specs.Opening.{sound};
ghost use Rattle.work.specs.Work.{message_on};
ghost use Rattle.work.specs.code.Steps.{told_one, ran};

use message::{Layout, Message, OddPart};
use opening::Book;
use quote::Quote;
use told::{Tally, Told};
use update::Effect;

// Taken, and no published entry changed.
const QUIET: Told = Told {
    code: 0,
    flags: 0,
    partly: false,
};

// A message that its line's letter sent, worked on the book.
fn work(book: &mut [u8], letter: u8, msg: &[u8]) -> Told
    requires { (sound book.old ≡ true) × (upper letter ≡ true) }
    ensures { (result ≡ told_one letter msg.now book.old) × (book.new ≡ message_on letter msg.now book.old) }
{
    let said = message::read(msg, letter);
    match said {
        Message::Refused(code) => Told { code, ..QUIET },
        Message::Idle => QUIET,
        Message::Finra(condition) => {
            let flags = finra::finra_pages(book, condition);
            Told { flags, ..QUIET }
        }
        Message::RoundLot { fault, quote, odd } => {
            work_round_lot(book, letter, msg, fault, quote, odd)
        }
        Message::OddLot(odd) => work_odd_lot(book, letter, msg, odd),
        Message::Maker { fault, name, quote } => {
            work_maker(book, letter, msg, fault, name, quote)
        }
        Message::Status(status) => work_status(book, letter, msg, status),
    }
}

// A Q K: the page of its symbol is found and lent to the update.
fn work_round_lot(
    book: &mut [u8],
    letter: u8,
    msg: &[u8],
    fault: u8,
    quote: Quote,
    odd: OddPart,
) -> Told
    requires book_value { (sound book.old ≡ true) × (upper letter ≡ true) }
    requires msg_value { message_of letter msg.now ≡ Message.RoundLot fault quote odd }
    ensures { (result ≡ told_one letter msg.now book.old) × (book.new ≡ message_on letter msg.now book.old) }
{
    let Some(k) = opening::find(book, &msg[Layout::SYMBOL..Layout::CONDITION]) else {
        return Told::UNLISTED;
    };
    let a = Book::OPENING_LEN + k * Book::PAGE_LEN; // the page of its symbol
    let e = a + Book::PAGE_LEN;
    let items = odd.items;
    let Effect { code, flags } = update::round_lot(
        &mut book[a..e],
        letter,
        fault,
        quote,
        odd,
        &msg[items..],
    );
    Told {
        code,
        flags, // of the round part alone, where the odd part is refused
        partly: 60 <= code,
    }
}

// A Q M, or FINRA's Q T.
fn work_odd_lot(book: &mut [u8], letter: u8, msg: &[u8], odd: OddPart) -> Told
    requires book_value { (sound book.old ≡ true) × (upper letter ≡ true) }
    requires msg_value { message_of letter msg.now ≡ Message.OddLot odd }
    ensures { (result ≡ told_one letter msg.now book.old) × (book.new ≡ message_on letter msg.now book.old) }
{
    let Some(k) = opening::find(book, &msg[Layout::SYMBOL..Layout::CONDITION]) else {
        return Told::UNLISTED;
    };
    let a = Book::OPENING_LEN + k * Book::PAGE_LEN;
    let e = a + Book::PAGE_LEN;
    let items = odd.items;
    let Effect { code, flags } = update::odd_lot(&mut book[a..e], letter, odd, &msg[items..]);
    Told {
        code,
        flags,
        partly: false, // taken whole, or rejected
    }
}

// A Q U.
fn work_maker(book: &mut [u8], letter: u8, msg: &[u8], fault: u8, name: u32, quote: Quote) -> Told
    requires book_value { (sound book.old ≡ true) × (upper letter ≡ true) }
    requires msg_value { message_of letter msg.now ≡ Message.Maker fault name quote }
    ensures { (result ≡ told_one letter msg.now book.old) × (book.new ≡ message_on letter msg.now book.old) }
{
    let Some(k) = opening::find(book, &msg[Layout::SYMBOL..Layout::CONDITION]) else {
        return Told::UNLISTED;
    };
    let a = Book::OPENING_LEN + k * Book::PAGE_LEN;
    let e = a + Book::PAGE_LEN;
    let Effect { code, flags } = update::maker_quote(&mut book[a..e], fault, name, quote);
    Told {
        code,
        flags,
        partly: false,
    }
}

// A T S.
fn work_status(book: &mut [u8], letter: u8, msg: &[u8], status: u8) -> Told
    requires book_value { (sound book.old ≡ true) × (upper letter ≡ true) }
    requires msg_value { message_of letter msg.now ≡ Message.Status status }
    ensures { (result ≡ told_one letter msg.now book.old) × (book.new ≡ message_on letter msg.now book.old) }
{
    let Some(k) = opening::find(book, &msg[Layout::SYMBOL..Layout::STATUS]) else {
        return Told::UNLISTED;
    };
    let a = Book::OPENING_LEN + k * Book::PAGE_LEN;
    let e = a + Book::PAGE_LEN;
    let Effect { code, flags } = update::trading_status(&mut book[a..e], letter, status);
    Told {
        code,
        flags,
        partly: false,
    }
}

/// Every message of a block that passed its checks, in order.
pub fn run(book: &mut [u8], letter: u8, block: &[u8], c: usize, answer: &mut [u8]) -> Tally
    requires book_value { (sound book.old ≡ true) × (upper letter ≡ true) }
    requires block_value { checked block.now ≡ Ok c }
    requires answer_length_in_bounds { answer_length ≤ length answer.old }
    ensures { record { book = book.exit.now; answer = answer.new; tally = result } ≡ ran letter block.now book.entry.now answer.old }
{
    let mut tally = Tally::NONE;
    for i in 0..c {
        let a = block::start(block, c, i);
        let e = block::start(block, c, i + 1);
        let told = work(book, letter, &block[a..e]);
        told::put_answer(answer, i, told);
        tally = tally.with(told);
    }
    tally
}
