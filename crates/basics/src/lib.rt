// What every call shares: the refusals by name and number, and a refusal with its place.
#![tactic(auto)]

ghost use Rattle.std.specs.Prelude.{◌≡◌};
ghost use Rattle.basics.specs.Refusals.{number_of};

// Why a call refuses, with the number that it has.
#[derive(Clone, Copy, Debug, PartialEq, Eq)]
pub enum Refusal {
    TextTooLong = 1,
    ShortSlice = 2,
    LineTooLong = 3,
    NotUtf8 = 4,
    UnknownDirective = 5,
    MissingOperand = 6,
    BadCharacter = 7,
    BadDots = 8,
    TrailingText = 9,
    TooManyConditions = 10,
    AlreadyDefined = 11,
    AliasLoop = 12,
    TableFull = 13,
    NotScalar = 14,
    NotTable = 15,
    BadState = 16,
    StrayBlockWord = 17,
    UnclosedBlock = 18,
    BeyondPage = 19,
    UnknownEdition = 20,
    UnknownCharset = 21,
    BrailleRow = 22,
    WrongOrder = 23,
}

// A refusal with its place: the number of a pair, of a character or of a window, or 0.
#[derive(Clone, Copy, Debug, PartialEq, Eq)]
pub struct Refused {
    pub refusal: Refusal,
    pub place: usize,
}

impl From<Refusal> for Refused {
    ghost from_gives = { λ refusal refused. refused ≡ record { refusal = refusal; place = 0 } };

    // A refusal that has no place of its own.
    fn from(refusal: Refusal) -> Refused {
        Refused { refusal, place: 0 }
    }
}

// The number of a refusal.
pub fn number_of(refusal: Refusal) -> u8
    ensures { result ≡ number_of refusal }
{
    refusal as u8
}
