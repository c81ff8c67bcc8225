// The block call.
#![tactic(auto)]

ghost use Rattle.std.specs.Prelude.{◌≡◌};
ghost use Rattle.numbers.specs.Numbers.{number_of};
ghost use Rattle.calls.specs.Buffers.{taken};

use calls::Report;
use numbers::Refusal;

/// Takes a block on a line. Of a taken block, the answer buffer's four bytes at 4i hold i, the code, the change flags and 0 for message i.
pub fn take_block(book: &mut [u8], line: u32, block: &[u8], answer: &mut [u8]) -> Report
    ensures { record { bytes = book.new; report = result; answer = answer.new } ≡ taken book.old line block.now answer.old }
{
    let gate = line::judge(book, line, block, answer.len());
    match gate {
        Err(stopped) => match stopped.line {
            None => refused(stopped.refusal, 0, 0),
            Some(old) => refused(stopped.refusal, old.expected, old.count),
        },
        Ok(taken) => {
            let tally = work::run(book, taken.next.letter, block, taken.count, answer);
            line::settle(book, line, taken.next, taken.free);
            Report {
                number: taken.number,
                gap: taken.gap,
                expected: taken.next.expected,
                count: taken.next.count,
                accepted: tally.accepted,
                partly: tally.partly,
                rejected: tally.rejected,
            }
        }
    }
}

// The report of a refused block: why, and its line's numbers as they stand.
fn refused(refusal: Refusal, expected: u32, count: u64) -> Report
    ensures { result ≡ record { number = number_of refusal; gap = 0; expected = expected; count = count; accepted = 0; partly = 0; rejected = 0 } }
{
    Report {
        number: refusal.number(),
        gap: 0,
        expected,
        count,
        accepted: 0,
        partly: 0,
        rejected: 0,
    }
}
