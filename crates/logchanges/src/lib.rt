// The calls that change a book, as records of a log (docs/LOG.md): the arguments read, the call carried out, its answer written.
#![tactic(auto)]

ghost use Rattle.std.specs.Prelude.{◌≡◌, cond, ◌*◌, ◌≤◌, length, drop};
ghost use Rattle.field.specs.Field.{field};
ghost use Rattle.block.specs.Block.{count_in};
ghost use Rattle.line.specs.Line.{done};
ghost use Rattle.calls.specs.Call.{make, add, open_line, start_day, end_day, take, set_allowance, tick};
ghost use Rattle.logcalls.specs.Answers.{answer_most};
ghost use Rattle.logcalls.specs.Kinds.{exactly, at_least};
ghost use Rattle.logcalls.specs.Replayed.{ran_call};
ghost use Rattle.logcalls.specs.code.Told.{ran_as};

use block::Block;
use logcalls::{Answers, Words};

pub fn make(book: &mut [u8], args: &[u8], output: &mut [u8]) -> Option<usize>
    requires { answer_most ≤ length output.old }
    ensures { ran_as result book.new output.new ≡ ran_call book.old output.old (exactly 4 args.now (make (field args.now 0 4))) }
{
    if args.len() != 4 {
        return None;
    }
    let n = field::get32(args, 0);
    let told = book::make(book, n);
    logcalls::put_told(output, told);
    Some(Answers::WORDS_LEN)
}

pub fn add(book: &mut [u8], args: &[u8], output: &mut [u8]) -> Option<usize>
    requires { answer_most ≤ length output.old }
    ensures { ran_as result book.new output.new ≡ ran_call book.old output.old (at_least 5 args.now (add (drop 5 args.now) (field args.now 0 4) (field args.now 4 1))) }
{
    if args.len() < 5 {
        return None;
    }
    let lot = field::get32(args, 0);
    let primary = field::get8(args, 4);
    let told = book::add_symbol(book, &args[5..], lot, primary);
    logcalls::put_told(output, told);
    Some(Answers::WORDS_LEN)
}

pub fn open_line(book: &mut [u8], args: &[u8], output: &mut [u8]) -> Option<usize>
    requires { answer_most ≤ length output.old }
    ensures { ran_as result book.new output.new ≡ ran_call book.old output.old (exactly 5 args.now (open_line (field args.now 0 4) (field args.now 4 1))) }
{
    if args.len() != 5 {
        return None;
    }
    let line = field::get32(args, 0);
    let letter = field::get8(args, 4);
    let told = book::open_line(book, line, letter);
    logcalls::put_told(output, told);
    Some(Answers::WORDS_LEN)
}

pub fn start_day(book: &mut [u8], args: &[u8], output: &mut [u8]) -> Option<usize>
    requires { answer_most ≤ length output.old }
    ensures { ran_as result book.new output.new ≡ ran_call book.old output.old (exactly 0 args.now start_day) }
{
    if args.len() != 0 {
        return None;
    }
    let told = book::start_day(book);
    logcalls::put_told(output, told);
    Some(Answers::WORDS_LEN)
}

pub fn end_day(book: &mut [u8], args: &[u8], output: &mut [u8]) -> Option<usize>
    requires { answer_most ≤ length output.old }
    ensures { ran_as result book.new output.new ≡ ran_call book.old output.old (exactly 0 args.now end_day) }
{
    if args.len() != 0 {
        return None;
    }
    let told = book::end_day(book);
    logcalls::put_told(output, told);
    Some(Answers::WORDS_LEN)
}

pub fn set_allowance(book: &mut [u8], args: &[u8], output: &mut [u8]) -> Option<usize>
    requires { answer_most ≤ length output.old }
    ensures { ran_as result book.new output.new ≡ ran_call book.old output.old (at_least 4 args.now (set_allowance (field args.now 0 4) (drop 4 args.now))) }
{
    if args.len() < 4 {
        return None;
    }
    let blocks = field::get32(args, 0);
    let told = ticks::set_allowance(book, blocks, &args[4..]);
    logcalls::put_told(output, told);
    Some(Answers::WORDS_LEN)
}

pub fn next_tick(book: &mut [u8], args: &[u8], output: &mut [u8]) -> Option<usize>
    requires { answer_most ≤ length output.old }
    ensures { ran_as result book.new output.new ≡ ran_call book.old output.old (exactly 0 args.now tick) }
{
    if args.len() != 0 {
        return None;
    }
    let told = ticks::next_tick(book);
    logcalls::put_told(output, told);
    Some(Answers::WORDS_LEN)
}

// Four bytes of answer for each message of a block that was taken. The number is plain: a report has it beside the line's figures.
fn answer_len(number: u8, block: &[u8]) -> usize
    ensures { (result ≡ cond (done number) (4 * count_in block.now) 0) × (result ≤ 1020) }
{
    match number {
        0 | 70 => 4 * (field::byte(block, 1) as usize),
        _ => 0,
    }
}

pub fn take_block(book: &mut [u8], args: &[u8], output: &mut [u8]) -> Option<usize>
    requires { answer_most ≤ length output.old }
    ensures { ran_as result book.new output.new ≡ ran_call book.old output.old (at_least 12 args.now (take (field args.now 0 4) (drop 12 args.now) (field args.now 4 8))) }
{
    if args.len() < 12 {
        return None;
    }
    let line = field::get32(args, 0);
    let room = logcalls::lent(field::get64(args, 4), Block::ANSWER_LEN);
    let end = Answers::WORDS_LEN + room;
    let told = intake::take_block(
        book,
        line,
        &args[12..],
        &mut output[Answers::WORDS_LEN..end],
    );
    let len = answer_len(told.number, &args[12..]);
    logcalls::put_words(
        output,
        Words {
            number: told.number as u64,
            gap: told.gap as u64,
            expected: told.expected as u64,
            count: told.count,
            accepted: told.accepted as u64,
            partly: told.partly as u64,
            rejected: told.rejected as u64,
            answers: len as u64,
            ..Words::NONE
        },
    );
    Some(Answers::WORDS_LEN + len)
}
