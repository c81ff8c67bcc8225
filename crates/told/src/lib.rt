// What is told of a block's messages: a code, change flags, answer bytes and counts.
#![tactic(auto)]

ghost use Rattle.std.specs.Prelude.{◌≡◌, cond, ◌*◌, ◌≤◌, ◌<◌, length};
ghost use Rattle.field.specs.Field.{splice};
ghost use Rattle.block.specs.Block.{messages_most, answer_length};
ghost use Rattle.told.specs.Told.{is_rejected};
ghost use Rattle.told.specs.code.Steps.{quad, tally_with};

/// What is told of one message: its code, its change flags, and whether it was partly accepted.
#[derive(Clone, Copy)]
pub struct Told {
    pub code: u8,
    pub flags: u8,
    pub partly: bool,
}

impl Told {
    /// The symbol is not listed.
    pub const UNLISTED: Told = Told {
        code: 45,
        flags: 0,
        partly: false,
    };
}

/// How many messages were accepted, partly accepted and rejected.
#[derive(Clone, Copy)]
pub struct Tally {
    pub accepted: u8,
    pub partly: u8,
    pub rejected: u8,
}

impl Tally {
    pub const NONE: Tally = Tally {
        accepted: 0,
        partly: 0,
        rejected: 0,
    };
}

/// The four bytes of message i in the answer buffer: i, the code, the change flags and 0.
pub fn put_answer(answer: &mut [u8], i: usize, told: Told)
    requires { (i < messages_most) × (answer_length ≤ length answer.old) }
    ensures { answer.new ≡ splice answer.old (4 * i) (quad i told) }
{
    answer[4 * i..4 * i + 4].copy_from_slice(&[i as u8, told.code, told.flags, 0]);
}

impl Tally {
    /// One message more.
    pub fn with(self, told: Told) -> Tally
        requires { (self.accepted < 64) × ((self.partly < 64) × (self.rejected < 64)) }
        ensures { result ≡ tally_with self told }
    {
        let accepted = self.accepted + u8::from(told.code == 0);
        let partly = self.partly + u8::from(told.partly);
        let rejected = self.rejected + u8::from(is_rejected(told));
        Tally {
            accepted,
            partly,
            rejected,
        }
    }
}

fn is_rejected(told: Told) -> bool
    ensures { result ≡ is_rejected told }
{
    told.code != 0 && !told.partly
}
