// The calls that read a book, as records of a log (docs/LOG.md): the arguments read, the call carried out, its answer written.
#![tactic(auto)]

ghost use Rattle.std.specs.Prelude.{◌≡◌, ◌≤◌, length, drop, Some};
ghost use Rattle.numbers.specs.Numbers.{number_of};
ghost use Rattle.field.specs.Field.{field, splice};
ghost use Rattle.calls.specs.Call.{bare, read, protected, convert_len, convert, snapshot_len, snapshot, try_order};
ghost use Rattle.logcalls.specs.Answers.{words_length, answer_bytes, answer_most};
ghost use Rattle.logcalls.specs.Kinds.{at_least};
ghost use Rattle.logcalls.specs.Replayed.{ran_call};
ghost use Rattle.logcalls.specs.code.Told.{ran_as};

use logcalls::{Answers, Words};
use numbers::Refusal;
use opening::Book;
use sweep::Steps;

// Writes the answer of a call that is refused.
fn refused(output: &mut [u8], refusal: Refusal) -> Option<usize>
    requires { answer_most ≤ length output.old }
    ensures { (result ≡ Some words_length) × (output.new ≡ splice output.old 0 (answer_bytes (bare (number_of refusal)))) }
{
    logcalls::put_told(output, Err(refusal));
    Some(Answers::WORDS_LEN)
}

pub fn read(book: &[u8], args: &[u8], output: &mut [u8]) -> Option<usize>
    requires { answer_most ≤ length output.old }
    ensures { ran_as result book.now output.new ≡ ran_call book.now output.old (at_least 8 args.now (read (drop 8 args.now) (field args.now 0 8))) }
{
    if args.len() < 8 {
        return None;
    }
    let room = logcalls::lent(field::get64(args, 0), Book::PUBLICATION_LEN);
    let end = Answers::WORDS_LEN + room;
    let told = query::read(book, &args[8..], &mut output[Answers::WORDS_LEN..end]);
    match told {
        Ok(()) => {
            logcalls::put_words(
                output,
                Words {
                    publication: Book::PUBLICATION_LEN as u64,
                    ..Words::NONE
                },
            );
            Some(Answers::WORDS_LEN + Book::PUBLICATION_LEN)
        }
        Err(refusal) => refused(output, refusal),
    }
}

pub fn is_protected(book: &[u8], args: &[u8], output: &mut [u8]) -> Option<usize>
    requires { answer_most ≤ length output.old }
    ensures { ran_as result book.now output.new ≡ ran_call book.now output.old (at_least 9 args.now (protected (drop 9 args.now) (field args.now 0 1) (field args.now 1 8))) }
{
    if args.len() < 9 {
        return None;
    }
    let mark = field::get8(args, 0);
    let price = field::get64(args, 1);
    match query::is_protected(book, &args[9..], mark, price) {
        Ok(told) => {
            logcalls::put_words(
                output,
                Words {
                    found: u64::from(told.yes),
                    amount: told.looked as u64,
                    ..Words::NONE
                },
            );
            Some(Answers::WORDS_LEN)
        }
        Err(refusal) => refused(output, refusal),
    }
}

pub fn convert_len(book: &[u8], args: &[u8], output: &mut [u8]) -> Option<usize>
    requires { answer_most ≤ length output.old }
    ensures { ran_as result book.now output.new ≡ ran_call book.now output.old (Some (convert_len args.now)) }
{
    match convert::convert_len(book, args) {
        Ok(len) => {
            logcalls::put_words(
                output,
                Words {
                    amount: len as u64,
                    ..Words::NONE
                },
            );
            Some(Answers::WORDS_LEN)
        }
        Err(refusal) => refused(output, refusal),
    }
}

pub fn convert(book: &[u8], args: &[u8], output: &mut [u8]) -> Option<usize>
    requires { answer_most ≤ length output.old }
    ensures { ran_as result book.now output.new ≡ ran_call book.now output.old (at_least 8 args.now (convert (drop 8 args.now) (field args.now 0 8))) }
{
    if args.len() < 8 {
        return None;
    }
    let room = logcalls::lent(field::get64(args, 0), Answers::FILLED_MOST);
    let end = Answers::WORDS_LEN + room;
    let told = convert::convert(book, &args[8..], &mut output[Answers::WORDS_LEN..end]);
    match told {
        Ok(len) => {
            logcalls::put_words(
                output,
                Words {
                    amount: len as u64,
                    output: len as u64,
                    ..Words::NONE
                },
            );
            Some(Answers::WORDS_LEN + len)
        }
        Err(refusal) => refused(output, refusal),
    }
}

pub fn snapshot_len(book: &[u8], args: &[u8], output: &mut [u8]) -> Option<usize>
    requires { answer_most ≤ length output.old }
    ensures { ran_as result book.now output.new ≡ ran_call book.now output.old (Some (snapshot_len args.now)) }
{
    match recovery::snapshot_len(book, args) {
        Ok(size) => {
            logcalls::put_words(
                output,
                Words {
                    found: size.blocks as u64,
                    amount: size.bytes as u64,
                    ..Words::NONE
                },
            );
            Some(Answers::WORDS_LEN)
        }
        Err(refusal) => refused(output, refusal),
    }
}

pub fn snapshot(book: &[u8], args: &[u8], output: &mut [u8]) -> Option<usize>
    requires { answer_most ≤ length output.old }
    ensures { ran_as result book.now output.new ≡ ran_call book.now output.old (at_least 8 args.now (snapshot (drop 8 args.now) (field args.now 0 8))) }
{
    if args.len() < 8 {
        return None;
    }
    let room = logcalls::lent(field::get64(args, 0), Answers::FILLED_MOST);
    let end = Answers::WORDS_LEN + room;
    let told = recovery::snapshot(book, &args[8..], &mut output[Answers::WORDS_LEN..end]);
    match told {
        Ok(size) => {
            logcalls::put_words(
                output,
                Words {
                    found: size.blocks as u64,
                    amount: size.bytes as u64,
                    output: size.bytes as u64,
                    ..Words::NONE
                },
            );
            Some(Answers::WORDS_LEN + size.bytes)
        }
        Err(refusal) => refused(output, refusal),
    }
}

pub fn try_order(book: &[u8], args: &[u8], output: &mut [u8]) -> Option<usize>
    requires { answer_most ≤ length output.old }
    ensures { ran_as result book.now output.new ≡ ran_call book.now output.old (at_least 13 args.now (try_order (drop 13 args.now) (field args.now 0 1) (field args.now 1 4) (field args.now 5 8))) }
{
    if args.len() < 13 {
        return None;
    }
    let mark = field::get8(args, 0);
    let lots = field::get32(args, 1);
    let room = logcalls::lent(field::get64(args, 5), Steps::LEN);
    let end = Answers::WORDS_LEN + room;
    let told = query::try_order(
        book,
        &args[13..],
        mark,
        lots,
        &mut output[Answers::WORDS_LEN..end],
    );
    match told {
        Ok(swept) => {
            let len = Steps::STEP_LEN * (swept.steps as usize);
            logcalls::put_words(
                output,
                Words {
                    found: swept.steps as u64,
                    amount: swept.unfilled as u64,
                    output: len as u64,
                    ..Words::NONE
                },
            );
            Some(Answers::WORDS_LEN + len)
        }
        Err(refusal) => refused(output, refusal),
    }
}
