// FINRA Close and Open on every page of a book.
#![tactic(auto)]

ghost use Rattle.std.specs.Prelude.{◌≡◌, true, ◌-◌, ◌≤◌, length};
ghost use Rattle.update.specs.Parts.{finra_on};
ghost use Rattle.opening.specs.Layout.{page_start, symbols_most};
ghost use Rattle.opening.specs.Opening.{symbols_of, each_page, sound};
ghost use Rattle.finra.specs.code.Flags.{or_from, page_flags, finra_flags};

use opening::Book;

/// FINRA Close or Open on every page; the flags of the counted ones together.
pub fn finra_pages(book: &mut [u8], condition: u8) -> u8
    requires { sound book.old ≡ true }
    ensures { (result ≡ finra_flags condition book.old) × (book.new ≡ each_page (finra_on condition) 0 (symbols_of book.old) book.old) }
{
    let n = field::get8(book, Book::N) as usize;
    let count = field::get8(book, Book::COUNT) as usize;
    let flags = mark_pages(book, 0, count, condition);
    let _ = mark_pages(book, count, n, condition); // pages of no symbol: their flags are not told
    flags
}

// The pages from `from` to `to`, and the flags of the entries that changed in any of them.
fn mark_pages(book: &mut [u8], from: usize, to: usize, condition: u8) -> u8
    requires { (from ≤ to) × ((to ≤ symbols_most) × (page_start to ≤ length book.old)) }
    ensures { (result ≡ or_from (page_flags condition book.old) from (to - from)) × (book.new ≡ each_page (finra_on condition) from (to - from) book.old) }
{
    let mut flags: u8 = 0;
    for k in from..to {
        let a = Book::OPENING_LEN + k * Book::PAGE_LEN;
        let e = a + Book::PAGE_LEN;
        flags = flags | update::finra(&mut book[a..e], condition);
    }
    flags
}
