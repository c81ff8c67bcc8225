// A book rebuilt from a log (docs/LOG.md).
#![tactic(auto)]

ghost use Rattle.std.specs.Prelude.{◌≡◌};
ghost use Rattle.numbers.specs.Numbers.{answered};
ghost use Rattle.logcalls.specs.Restored.{restored};

use logform::Log;
use numbers::Refusal;
use replay::Replayed;

// Nothing was carried out.
fn none(refusal: Refusal) -> Replayed
    ensures { result ≡ record { ended = Err refusal; place = 0; written = 0 } }
{
    Replayed {
        ended: Err(refusal),
        place: 0,
        written: 0,
    }
}

/// Makes the lent memory a book for the symbols that the log's head tells, and carries out the log's calls as `replay` does. 90: the log has no
/// head; 2: the memory is not that of such a book.
pub fn restore(book: &mut [u8], log: &[u8], output: &mut [u8]) -> Replayed
    ensures { record { number = answered result.ended; place = result.place; written = result.written; bytes = book.new; output = output.new } ≡ restored book.old log.now output.old }
{
    let head = match logform::read_head(log) {
        Ok(head) => head,
        Err(refusal) => return none(refusal),
    };
    match book::make(book, head.n as u32) {
        Ok(()) => replay::replay(book, log, Log::HEAD, output),
        Err(refusal) => none(refusal),
    }
}
