// The documents' numbers: why a call is refused, and why a message is rejected (docs/CHECKS.md).
#![tactic(auto)]

ghost use Rattle.std.specs.Prelude.{◌≡◌};
ghost use Rattle.numbers.specs.Numbers.{code_of, number_of};

/// Why a call is refused. It has then changed nothing.
#[derive(Clone, Copy, Debug, PartialEq, Eq)]
pub enum Refusal {
    NoBook = 1,
    Make = 2,
    SymbolMalformed = 3,
    SymbolListed = 4,
    BookFull = 5,
    RoundLot = 6,
    LineOrLetter = 7,
    LineOpen = 8,
    BufferShort = 9,
    SymbolUnknown = 10,
    DayOpen = 11,
    DayNotOpen = 12,
    BlockWhileClosed = 20,
    LineNotOpen = 21,
    BlockLength = 30,
    Version = 31,
    Checksum = 32,
    Offsets = 33,
    ControlNotAlone = 34,
    Duplicate = 35,
    WriteMessages = 71,
    WriteControl = 72,
    WriteShort = 73,
    Side = 74,
    Primary = 75,
    VenueBlock = 78,
    VenueUnplaced = 79,
    ConvertShort = 80,
    SnapshotShort = 81,
    Lots = 82,
    StepsShort = 83,
    Allowance = 84,
    Shares = 85,
    UsedUp = 86,
    LogHead = 90,
    LogCut = 91,
    LogDamaged = 92,
    LogRoom = 93,
}

impl Refusal {
    /// Its number.
    pub fn number(self) -> u8
        ensures { result ≡ number_of self }
    {
        self as u8
    }
}

/// Why a message, or its odd part, is rejected.
#[derive(Clone, Copy, Debug, PartialEq, Eq)]
pub enum Rejection {
    UnknownType = 40,
    Letter = 41,
    Length = 42,
    FixedByte = 43,
    WrongLine = 44,
    Symbol = 45,
    Condition = 46,
    SizeWithoutPrice = 47,
    Maker = 48,
    MakersFull = 49,
    ClearMark = 60,
    ItemCount = 61,
    ItemPrice = 62,
    ItemShares = 63,
    FifthLevel = 64,
    NotPrimary = 76,
    Status = 77,
}

impl Rejection {
    /// Its code.
    pub fn code(self) -> u8
        ensures { result ≡ code_of self }
    {
        self as u8
    }
}
