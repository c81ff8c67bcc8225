// A log replayed on a book: each record's call is carried out, and its answer written behind the last (docs/LOG.md).
#![tactic(auto)]

ghost use Rattle.std.specs.Prelude.{◌≡◌, ◌≤◌, length};
ghost use Rattle.numbers.specs.Numbers.{answered};
ghost use Rattle.logcalls.specs.Answers.{answer_most};
ghost use Rattle.logcalls.specs.Kinds.{call_of};
ghost use Rattle.logcalls.specs.Replayed.{ran_call, stepped, replayed};
ghost use Rattle.logcalls.specs.code.Told.{ran_as};
ghost use Rattle.replay.specs.code.Told.{stepped_as};

use logcalls::{Answers, Kind};
use logform::{Entry, Log};
use numbers::Refusal;

// Carries out a record's call on the book and writes its answer to the output, from its start: the answer's bytes, or none if it is no call.
fn run(book: &mut [u8], kind: u8, args: &[u8], output: &mut [u8]) -> Option<usize>
    requires { answer_most ≤ length output.old }
    ensures { ran_as result book.new output.new ≡ ran_call book.old output.old (call_of kind args.now) }
{
    match Kind::try_from(kind) {
        Ok(Kind::Make) => logchanges::make(book, args, output),
        Ok(Kind::AddSymbol) => logchanges::add(book, args, output),
        Ok(Kind::OpenLine) => logchanges::open_line(book, args, output),
        Ok(Kind::StartDay) => logchanges::start_day(book, args, output),
        Ok(Kind::EndDay) => logchanges::end_day(book, args, output),
        Ok(Kind::TakeBlock) => logchanges::take_block(book, args, output),
        Ok(Kind::Read) => logqueries::read(book, args, output),
        Ok(Kind::IsProtected) => logqueries::is_protected(book, args, output),
        Ok(Kind::ConvertLen) => logqueries::convert_len(book, args, output),
        Ok(Kind::Convert) => logqueries::convert(book, args, output),
        Ok(Kind::SnapshotLen) => logqueries::snapshot_len(book, args, output),
        Ok(Kind::Snapshot) => logqueries::snapshot(book, args, output),
        Ok(Kind::TryOrder) => logqueries::try_order(book, args, output),
        Ok(Kind::SetAllowance) => logchanges::set_allowance(book, args, output),
        Ok(Kind::NextTick) => logchanges::next_tick(book, args, output),
        Err(_) => None,
    }
}

/// A call that a step carried out: where the next record begins, and the bytes of the answer.
#[derive(Clone, Copy)]
pub struct Stepped {
    pub place: usize,
    pub len: usize,
}

/// Carries out the call of the record at `at`; its answer stands from the output's start on. Nothing at the log's end. 91: the log ends inside
/// a record; 92: a damaged record, or one that is no call; 93: the output may be too short for the answer.
pub fn step(
    book: &mut [u8],
    log: &[u8],
    at: usize,
    output: &mut [u8],
) -> Result<Option<Stepped>, Refusal>
    ensures { stepped_as at result book.new output.new ≡ stepped book.old log.now at output.old }
{
    match logform::entry_at(log, at) {
        Entry::End => Ok(None),
        Entry::Cut => Err(Refusal::LogCut),
        Entry::Damaged => Err(Refusal::LogDamaged),
        Entry::Record(record) => {
            let args = &log[record.start..record.stop];
            if !logcalls::is_call(record.kind, args) {
                return Err(Refusal::LogDamaged);
            }
            if output.len() < Answers::MOST {
                return Err(Refusal::LogRoom);
            }
            let Some(len) = run(book, record.kind, args, output) else {
                return Err(Refusal::LogDamaged);
            };
            Ok(Some(Stepped {
                place: record.stop + Log::CHECK,
                len,
            }))
        }
    }
}

/// Where a replay stopped in the log, at its end or by which refusal, and the bytes of the answers.
#[derive(Clone, Copy)]
pub struct Replayed {
    pub ended: Result<(), Refusal>,
    pub place: usize,
    pub written: usize,
}

/// Carries out the calls of the log from a place on, as long as the output has room for their answers, which stand one behind the other.
pub fn replay(book: &mut [u8], log: &[u8], from: usize, output: &mut [u8]) -> Replayed
    ensures { record { number = answered result.ended; place = result.place; written = result.written; bytes = book.new; output = output.new } ≡ replayed book.old log.now from output.old }
{
    let end = output.len();
    let mut at = from;
    let mut written: usize = 0;
    // each record tells where the next begins
    loop {
        match step(book, log, at, &mut output[written..end]) {
            Ok(Some(stepped)) => {
                at = stepped.place;
                written += stepped.len;
            }
            Ok(None) => {
                return Replayed {
                    ended: Ok(()),
                    place: at,
                    written,
                };
            }
            Err(refusal) => {
                return Replayed {
                    ended: Err(refusal),
                    place: at,
                    written,
                };
            }
        }
    }
}
