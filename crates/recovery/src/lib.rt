// The calls for subscribers that recover from a failure: a symbol's snapshot (document 02, T-12).
#![tactic(auto)]

ghost use Rattle.std.specs.Prelude.{◌≡◌, [], length};
ghost use Rattle.numbers.specs.Numbers.{answered, told_if_ok};
ghost use Rattle.calls.specs.Buffers.{feed_of, feed_out};
ghost use Rattle.calls.specs.Call.{call, snapshot_len, fed, snapshot_told};
ghost use Rattle.feed.specs.code.Blocks.{Lent};
ghost use Rattle.recovery.specs.code.Page.{page_snapshot};

use feed::Size;
use numbers::Refusal;
use opening::Book;

/// Tells how many blocks and bytes a symbol's snapshot has, without writing it.
pub fn snapshot_len(book: &[u8], symbol: &[u8]) -> Result<Size, Refusal>
    ensures { record { bytes = book.now; answer = fed (answered result) (told_if_ok result (λ s. s.blocks)) (told_if_ok result (λ s. s.bytes)) [] } ≡ call book.now (snapshot_len symbol.now) }
{
    let k = calls::known(book, symbol)?;
    let a = Book::OPENING_LEN + k * Book::PAGE_LEN;
    let e = a + Book::PAGE_LEN;
    Ok(Size::of(feed::count(&book[a..e])))
}

// Check 81, then the snapshot of a page.
fn fill(page: &[u8], symbol: &[u8], output: &mut [u8]) -> Result<Size, Refusal>
    requires { Lent symbol.now page.now }
    ensures { record { number = answered result; blocks = told_if_ok result (λ s. s.blocks); bytes = told_if_ok result (λ s. s.bytes); output = output.new } ≡ feed_of output.old (snapshot_told 0 (length output.old) (page_snapshot symbol.now page.now)) }
{
    let k = feed::count(page);
    let size = Size::of(k);
    if output.len() < size.bytes {
        return Err(Refusal::SnapshotShort);
    }
    feed::write(output, symbol, page, k);
    Ok(size)
}

/// Writes a symbol's snapshot at the output's front, its blocks end to end.
pub fn snapshot(book: &[u8], symbol: &[u8], output: &mut [u8]) -> Result<Size, Refusal>
    ensures { record { number = answered result; blocks = told_if_ok result (λ s. s.blocks); bytes = told_if_ok result (λ s. s.bytes); output = output.new } ≡ feed_out book.now symbol.now output.old }
{
    let page = calls::known(book, symbol)?;
    let a = Book::OPENING_LEN + page * Book::PAGE_LEN;
    let e = a + Book::PAGE_LEN;
    fill(&book[a..e], symbol, output)
}
