// The records of a tape: each block taken, and what it got printed.
#![tactic(auto)]

use block::Block;
use input::{Input, Record, Stop};
use output::Output;
use print::Got;

/// Every record, until the reading stops. Nothing says that a tape ends, so the turns are counted, to a number that no run reaches.
pub fn take_blocks(book: &mut [u8], input: &mut Input, out: &mut Output) -> Result<(), Stop> {
    for _ in 0..u64::MAX {
        let Record { line, block } = input.next_record(out)?;
        let mut answer = [0u8; Block::ANSWER_LEN];
        let report = intake::take_block(book, u32::from(line), block, &mut answer);
        let got = Got {
            line,
            number: report.number,
            gap: report.gap,
            expected: report.expected,
            messages: usize::from(report.accepted)
                + usize::from(report.partly)
                + usize::from(report.rejected),
        };
        print::put_block(out, got, &answer);
    }
    Ok(())
}
