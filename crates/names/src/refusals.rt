// Why a text is refused, and where.
ghost use Rattle.std.specs.Prelude.{◌≡◌};
ghost use Rattle.names.specs.Refusals as refusals;

// Why a text is refused: the rows of the rules' table, by their numbers.
#[derive(Clone, Copy, PartialEq, Eq)]
pub enum Reason {
    // over 4,096 bytes
    TooLong = 1,
    // the given place is no part's beginning
    NoPart = 2,
    // no shape fits
    NoShape = 3,
    // number out of range
    Range = 4,
    // week step above 255
    WeekStep = 5,
    // years inverted
    YearsInverted = 6,
    // weeks inverted
    WeeksInverted = 7,
    // point in time
    PointInTime = 8,
    // bare day after easter
    EasterDay = 9,
    // all else good, more records than whole groups of 16 words in the table
    NoRoom = 10,
    // an empty rule
    EmptyRule = 11,
    // a quote, and after it another one or none at all
    BrokenQuote = 12,
    // a comment that is not well-formed UTF-8
    IllFormedComment = 13,
    // no edition has the given number
    UnknownEdition = 19,
    // a form that the house profile does not allow
    HouseForm = 22,
    // in a house sheet a span that ends not after its start, or starts before an earlier one ends
    HouseOrder = 23,
}

impl Reason {
    // Its number.
    pub fn number(self) -> u8
        ensures { result ≡ refusals.number self }
    {
        self as u8
    }
}

// A refusal: why, and at which place. A reader of texts says why by a reason.
#[derive(Clone, Copy, PartialEq, Eq)]
pub struct Refusal<R = Reason> {
    pub reason: R,
    pub place: usize,
}
