// The C interface: the calls on a book and the writer of blocks under the names of include/quotebook.h. A `&[u8]` is a pointer and a length there.
#![tactic(auto)]

ghost use Rattle.std.specs.Prelude.{◌≡◌};
ghost use Rattle.std.specs.Result.{result_unwrap_or};
ghost use Rattle.numbers.specs.Numbers.{answered};
ghost use Rattle.calls.specs.Call.{bare, call, make, add, open_line, start_day, end_day, set_allowance, tick};
ghost use Rattle.calls.specs.Buffers.{read_out};
ghost use Rattle.quotebook.specs.Interface.{book_len, library_version, taken_numbers, protected_numbers, tried_numbers, written_numbers, length_numbers, converted_numbers, size_numbers, feed_numbers, head_numbers, replayed_numbers, restored_numbers};

use feed::Size;
use logform::Head;
use numbers::Refusal;
use opening::Book;
use protection::Protection;
use sweep::Swept;

const OPENING: u64 = Book::OPENING_LEN as u64;

const PAGE: u64 = Book::PAGE_LEN as u64;

// 10000 * major + 100 * minor + patch
const VERSION: u32 = 10301;

/// The library's version; the header's is QB_LIBRARY_VERSION.
#[unsafe(no_mangle)]
pub extern "C" fn qb_version() -> u32
    ensures { result ≡ library_version }
{
    VERSION
}

/// Bytes of a book for n symbols; 0 if n is not 1 to 64.
#[unsafe(no_mangle)]
pub extern "C" fn qb_book_len(n: u32) -> u64
    ensures { result ≡ book_len n }
{
    if n < 1 {
        return 0;
    }
    if Book::N_MAX < n {
        return 0;
    }
    OPENING + (n as u64) * PAGE
}

// What a call told: its number, and its value, or another after a refusal.
fn parts<T: Copy>(told: Result<T, Refusal>, refused: T) -> (u8, T)
    ensures { (result.0 ≡ answered told) × (result.1 ≡ result_unwrap_or told refused) }
{
    match told {
        Ok(value) => (0, value),
        Err(refusal) => (refusal.number(), refused),
    }
}

fn number(told: Result<(), Refusal>) -> u8
    ensures { result ≡ answered told }
{
    parts(told, ()).0
}

#[unsafe(no_mangle)]
pub extern "C" fn qb_make(book: &mut [u8], n: u32) -> u8
    ensures { record { bytes = book.new; answer = bare result } ≡ call book.old (make n) }
{
    number(book::make(book, n))
}

#[unsafe(no_mangle)]
pub extern "C" fn qb_add_symbol(book: &mut [u8], symbol: &[u8], lot: u32, primary: u8) -> u8
    ensures { record { bytes = book.new; answer = bare result } ≡ call book.old (add symbol.now lot primary) }
{
    number(book::add_symbol(book, symbol, lot, primary))
}

#[unsafe(no_mangle)]
pub extern "C" fn qb_open_line(book: &mut [u8], line: u32, letter: u8) -> u8
    ensures { record { bytes = book.new; answer = bare result } ≡ call book.old (open_line line letter) }
{
    number(book::open_line(book, line, letter))
}

#[unsafe(no_mangle)]
pub extern "C" fn qb_start_day(book: &mut [u8]) -> u8
    ensures { record { bytes = book.new; answer = bare result } ≡ call book.old start_day }
{
    number(book::start_day(book))
}

#[unsafe(no_mangle)]
pub extern "C" fn qb_end_day(book: &mut [u8]) -> u8
    ensures { record { bytes = book.new; answer = bare result } ≡ call book.old end_day }
{
    number(book::end_day(book))
}

#[unsafe(no_mangle)]
pub extern "C" fn qb_set_allowance(book: &mut [u8], blocks: u32, shares: &[u8]) -> u8
    ensures { record { bytes = book.new; answer = bare result } ≡ call book.old (set_allowance blocks shares.now) }
{
    number(ticks::set_allowance(book, blocks, shares))
}

#[unsafe(no_mangle)]
pub extern "C" fn qb_tick(book: &mut [u8]) -> u8
    ensures { record { bytes = book.new; answer = bare result } ≡ call book.old tick }
{
    number(ticks::next_tick(book))
}

/// The report's seven numbers: number, gap, next expected, count, accepted, partly accepted, rejected. The result is the number too.
#[unsafe(no_mangle)]
pub extern "C" fn qb_take_block(
    book: &mut [u8],
    line: u32,
    block: &[u8],
    answer: &mut [u8],
    report: &mut [u64; 7],
) -> u8
    ensures { record { number = result; bytes = book.new; report = report.new; answer = answer.new } ≡ taken_numbers book.old line block.now answer.old }
{
    let told = intake::take_block(book, line, block, answer);
    *report = [
        told.number as u64,
        told.gap as u64,
        told.expected as u64,
        told.count,
        told.accepted as u64,
        told.partly as u64,
        told.rejected as u64,
    ];
    told.number
}

#[unsafe(no_mangle)]
pub extern "C" fn qb_read(book: &[u8], symbol: &[u8], publication: &mut [u8]) -> u8
    ensures { record { number = result; publication = publication.new } ≡ read_out book.now symbol.now publication.old }
{
    number(query::read(book, symbol, publication))
}

/// The report's two numbers: number, bytes written. The result is the number too.
#[unsafe(no_mangle)]
pub extern "C" fn qb_write_block(
    messages: &[u8],
    lengths: &[u32],
    sequence: u32,
    block: &mut [u8],
    report: &mut [u64; 2],
) -> u8
    ensures { record { number = result; report = report.new; block = block.new } ≡ written_numbers messages.now lengths.now sequence block.old }
{
    let (number, len) = parts(writer::write_block(messages, lengths, sequence, block), 0);
    *report = [number as u64, len as u64];
    number
}

/// The report's three numbers: number, 1 for yes or 0 for no, letters looked at. The result is the number too.
#[unsafe(no_mangle)]
pub extern "C" fn qb_is_protected(
    book: &[u8],
    symbol: &[u8],
    side: u8,
    price: u64,
    report: &mut [u64; 3],
) -> u8
    ensures { record { number = result; report = report.new } ≡ protected_numbers book.now symbol.now side price }
{
    let none = Protection {
        yes: false,
        looked: 0,
    };
    let (number, told) = parts(query::is_protected(book, symbol, side, price), none);
    *report = [number as u64, u64::from(told.yes), told.looked as u64];
    number
}

/// The report's two numbers: number, bytes that `qb_convert` writes. The result is the number too.
#[unsafe(no_mangle)]
pub extern "C" fn qb_convert_len(book: &[u8], block: &[u8], report: &mut [u64; 2]) -> u8
    ensures { record { number = result; report = report.new } ≡ length_numbers book.now block.now }
{
    let (number, len) = parts(convert::convert_len(book, block), 0);
    *report = [number as u64, len as u64];
    number
}

/// The report's two numbers: number, bytes written. The result is the number too.
#[unsafe(no_mangle)]
pub extern "C" fn qb_convert(
    book: &[u8],
    block: &[u8],
    output: &mut [u8],
    report: &mut [u64; 2],
) -> u8
    ensures { record { number = result; report = report.new; output = output.new } ≡ converted_numbers book.now block.now output.old }
{
    let (number, len) = parts(convert::convert(book, block, output), 0);
    *report = [number as u64, len as u64];
    number
}

/// The size's two numbers: blocks, bytes.
#[unsafe(no_mangle)]
pub extern "C" fn qb_snapshot_len(book: &[u8], symbol: &[u8], size: &mut [u64; 2]) -> u8
    ensures { record { number = result; size = size.new } ≡ size_numbers book.now symbol.now }
{
    let none = Size {
        blocks: 0,
        bytes: 0,
    };
    let (number, told) = parts(recovery::snapshot_len(book, symbol), none);
    *size = [told.blocks as u64, told.bytes as u64];
    number
}

/// The size's two numbers: blocks, bytes written.
#[unsafe(no_mangle)]
pub extern "C" fn qb_snapshot(
    book: &[u8],
    symbol: &[u8],
    output: &mut [u8],
    size: &mut [u64; 2],
) -> u8
    ensures { record { number = result; size = size.new; output = output.new } ≡ feed_numbers book.now symbol.now output.old }
{
    let none = Size {
        blocks: 0,
        bytes: 0,
    };
    let (number, told) = parts(recovery::snapshot(book, symbol, output), none);
    *size = [told.blocks as u64, told.bytes as u64];
    number
}

/// The report's three numbers: number, steps, lots not found. The result is the number too.
#[unsafe(no_mangle)]
pub extern "C" fn qb_try_order(
    book: &[u8],
    symbol: &[u8],
    side: u8,
    lots: u32,
    steps: &mut [u8],
    report: &mut [u64; 3],
) -> u8
    ensures { record { number = result; report = report.new; steps = steps.new } ≡ tried_numbers book.now symbol.now side lots steps.old }
{
    let none = Swept {
        steps: 0,
        unfilled: 0,
    };
    let (number, told) = parts(query::try_order(book, symbol, side, lots, steps), none);
    *report = [number as u64, told.steps as u64, told.unfilled as u64];
    number
}

/// The report's three numbers: number, symbols, requests. The result is the number too.
#[unsafe(no_mangle)]
pub extern "C" fn qb_log_head(log: &[u8], report: &mut [u64; 3]) -> u8
    ensures { record { number = result; report = report.new } ≡ head_numbers log.now }
{
    let none = Head { n: 0, requests: 0 };
    let (number, told) = parts(logform::read_head(log), none);
    *report = [number as u64, told.n as u64, told.requests as u64];
    number
}

/// The report's three numbers: number, place in the log, bytes written. The result is the number too.
#[unsafe(no_mangle)]
pub extern "C" fn qb_replay(
    book: &mut [u8],
    log: &[u8],
    from: usize,
    output: &mut [u8],
    report: &mut [u64; 3],
) -> u8
    ensures { record { number = result; bytes = book.new; report = report.new; output = output.new } ≡ replayed_numbers book.old log.now from output.old }
{
    let told = replay::replay(book, log, from, output);
    let number = number(told.ended);
    *report = [number as u64, told.place as u64, told.written as u64];
    number
}

/// The report's three numbers: number, place in the log, bytes written. The result is the number too.
#[unsafe(no_mangle)]
pub extern "C" fn qb_restore(
    book: &mut [u8],
    log: &[u8],
    output: &mut [u8],
    report: &mut [u64; 3],
) -> u8
    ensures { record { number = result; bytes = book.new; report = report.new; output = output.new } ≡ restored_numbers book.old log.now output.old }
{
    let told = restore::restore(book, log, output);
    let number = number(told.ended);
    *report = [number as u64, told.place as u64, told.written as u64];
    number
}
