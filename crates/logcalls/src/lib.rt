// What a replay of a log needs beside the calls: an answer's numbers as bytes, how much of the output a call is lent, and which records hold a call.
#![tactic(auto)]

ghost use Rattle.std.specs.Prelude.{◌≡◌, ◌≤◌, length};
ghost use Rattle.lists.specs.Lists.{is_some};
ghost use Rattle.numbers.specs.Numbers.{answered};
ghost use Rattle.field.specs.Field.{splice};
ghost use Rattle.calls.specs.Call.{bare};
ghost use Rattle.logcalls.specs.Kinds.{call_of};
ghost use Rattle.logcalls.specs.Answers.{words_bytes, words_length, answer_bytes, answer_most, lent_of};
ghost use Rattle.logcalls.specs.code.Told.{numbers_in, Decodes};

use numbers::Refusal;

/// Lengths of an answer's bytes.
#[derive(Clone, Copy)]
pub struct Answers {}

impl Answers {
    pub const WORDS: usize = 12;

    pub const WORDS_LEN: usize = 8 * Answers::WORDS;
    /// The most bytes that a call fills: the longest run of T-11.
    pub const FILLED_MOST: usize = 3600;

    pub const MOST: usize = Answers::WORDS_LEN + Answers::FILLED_MOST;
}

/// The twelve numbers of an answer, in the order in which they stand. What a call does not tell is 0.
#[derive(Clone, Copy)]
pub struct Words {
    pub number: u64,
    pub gap: u64,
    pub expected: u64,
    pub count: u64,
    pub accepted: u64,
    pub partly: u64,
    pub rejected: u64,
    pub found: u64,
    pub amount: u64,
    /// The lengths of the bytes behind the numbers.
    pub answers: u64,
    pub publication: u64,
    pub output: u64,
}

impl Words {
    pub const NONE: Words = Words {
        number: 0,
        gap: 0,
        expected: 0,
        count: 0,
        accepted: 0,
        partly: 0,
        rejected: 0,
        found: 0,
        amount: 0,
        answers: 0,
        publication: 0,
        output: 0,
    };
}

/// Writes an answer's numbers.
pub fn put_words(output: &mut [u8], words: Words)
    requires { words_length ≤ length output.old }
    ensures { output.new ≡ splice output.old 0 (words_bytes (numbers_in words)) }
{
    let words = [
        words.number,
        words.gap,
        words.expected,
        words.count,
        words.accepted,
        words.partly,
        words.rejected,
        words.found,
        words.amount,
        words.answers,
        words.publication,
        words.output,
    ];
    for (i, word) in words.iter().enumerate() {
        field::put64(output, 8 * i, *word);
    }
}

/// Writes the answer of a call that fills nothing and tells its number alone.
pub fn put_bare(output: &mut [u8], number: u8)
    requires { answer_most ≤ length output.old }
    ensures { output.new ≡ splice output.old 0 (answer_bytes (bare number)) }
{
    put_words(
        output,
        Words {
            number: number as u64,
            ..Words::NONE
        },
    );
}

/// The same of a call that is done or refused.
pub fn put_told(output: &mut [u8], told: Result<(), Refusal>)
    requires { answer_most ≤ length output.old }
    ensures { output.new ≡ splice output.old 0 (answer_bytes (bare (answered told))) }
{
    match told {
        Ok(()) => put_bare(output, 0),
        Err(refusal) => put_bare(output, refusal.number()),
    }
}

/// Of a buffer of that length a call is lent what it may fill.
pub fn lent(room: u64, most: usize) -> usize
    ensures { result ≡ lent_of room most }
{
    room.min(most as u64) as usize
}

/// The kinds of call, by their numbers in a log.
#[derive(Clone, Copy, Debug, PartialEq, Eq)]
pub enum Kind {
    Make = 1,
    AddSymbol = 2,
    OpenLine = 3,
    StartDay = 4,
    EndDay = 5,
    TakeBlock = 6,
    Read = 7,
    IsProtected = 8,
    ConvertLen = 9,
    Convert = 10,
    SnapshotLen = 11,
    Snapshot = 12,
    TryOrder = 13,
    SetAllowance = 14,
    NextTick = 15,
}

impl TryFrom<u8> for Kind {
    type Error = Refusal;

    ghost try_from_gives = { Decodes };

    fn try_from(number: u8) -> Result<Self, Refusal> {
        match number {
            1 => Ok(Kind::Make),
            2 => Ok(Kind::AddSymbol),
            3 => Ok(Kind::OpenLine),
            4 => Ok(Kind::StartDay),
            5 => Ok(Kind::EndDay),
            6 => Ok(Kind::TakeBlock),
            7 => Ok(Kind::Read),
            8 => Ok(Kind::IsProtected),
            9 => Ok(Kind::ConvertLen),
            10 => Ok(Kind::Convert),
            11 => Ok(Kind::SnapshotLen),
            12 => Ok(Kind::Snapshot),
            13 => Ok(Kind::TryOrder),
            14 => Ok(Kind::SetAllowance),
            15 => Ok(Kind::NextTick),
            _ => Err(Refusal::LogDamaged),
        }
    }
}

/// Whether arguments of that length are those of a call of that kind.
pub fn is_call(kind: u8, args: &[u8]) -> bool
    ensures { result ≡ is_some (call_of kind args.now) }
{
    let len = args.len();
    match Kind::try_from(kind) {
        Ok(Kind::Make) => len == 4,
        Ok(Kind::AddSymbol) => 5 <= len,
        Ok(Kind::OpenLine) => len == 5,
        Ok(Kind::StartDay) => len == 0,
        Ok(Kind::EndDay) => len == 0,
        Ok(Kind::TakeBlock) => 12 <= len,
        Ok(Kind::Read) => 8 <= len,
        Ok(Kind::IsProtected) => 9 <= len,
        Ok(Kind::ConvertLen) => true,
        Ok(Kind::Convert) => 8 <= len,
        Ok(Kind::SnapshotLen) => true,
        Ok(Kind::Snapshot) => 8 <= len,
        Ok(Kind::TryOrder) => 13 <= len,
        Ok(Kind::SetAllowance) => 4 <= len,
        Ok(Kind::NextTick) => len == 0,
        Err(_) => false,
    }
}
