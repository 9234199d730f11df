// Why something is refused: document 01's refusals, each with its number. An answer as one number is 0 for accepted, or the refusal's.
#![tactic(auto)]

ghost use Rattle.std.specs.Prelude.{◌≡◌};
ghost use Rattle.numbers.specs.Numbers.{number_of};
ghost use Rattle.numbers.specs.Promises.{NumberGiven};

// What C has for an answer that refuses nothing.
pub const ACCEPTED: u8 = 0;

#[derive(Clone, Copy, PartialEq, Eq, Debug)]
pub enum Refusal {
    OutsideCharset = 1,
    MixedCase = 2,
    NoSeparator = 3,
    PrefixEmpty = 4,
    PrefixLong = 5,
    PrefixByte = 6,
    StringLong = 7,
    DataShort = 8,
    ChecksumWrong = 9,
    AddressLong = 10,
    NoData = 11,
    VersionUnknown = 12,
    PaddingLong = 13,
    PaddingNotZero = 14,
    ProgramLength = 15,
    ProgramLengthVersion0 = 16,
    RoomSmall = 17,
    SymbolLarge = 18,
    BatchLong = 19,
    EntryOutside = 20,
    NoSinglePlace = 21,
    ScratchSmall = 22,
    WindowOutside = 23,
    BudgetSpent = 24,
    ListFull = 25,
    ListPlace = 26,
    DivisionByZero = 27,
    ChecksumUnknown = 28,
    // What a caller of C lends to be written overlaps something else that it gives. 29 to 36 are document 02's.
    RangesOverlap = 37,
}

impl From<Refusal> for u8 {
    ghost from_gives = { λ refusal number. number ≡ number_of refusal };

    fn from(refusal: Refusal) -> u8 {
        refusal as u8
    }
}

// An answer as one number, whatever it gives where it accepts.
pub fn number_in<T: Copy>(answer: Result<T, Refusal>) -> u8
    ensures { NumberGiven answer result }
{
    match answer {
        Ok(_) => ACCEPTED,
        Err(refusal) => refusal.into(),
    }
}
