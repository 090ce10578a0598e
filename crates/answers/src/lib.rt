// The refusals of documents 01 and 02, by their names and numbers there. What an answer is stands in
// specs/Outcome.antt, and the same numbers for definitions in specs/Refusals.antt.

#![tactic(auto)]

ghost use Rattle.std.specs.Prelude.{◌≡◌};
ghost use Rattle.answers.specs.Outcome.{number};

// Why a call refuses. The numbers are those that C callers see.
#[derive(Clone, Copy, Debug, PartialEq, Eq)]
pub enum Refusal {
    Record = 1,
    // An input float isn't finite.
    Value = 2,
    Type = 3,
    Mode = 4,
    Band = 5,
    Count = 6,
    Aim = 7,
    Space = 8,
    // A gain met in the search, or its peak, isn't finite.
    Pattern = 9,
    // The number asked for isn't finite.
    Level = 10,
    Calendar = 11,
    // A row of a band book.
    Row = 12,
    Gap = 13,
    Overlap = 14,
    // A table that isn't the antenna record's.
    Table = 15,
    // A call on the board that can't be: no such id, already on, or not on.
    Call = 16,
    Full = 17,
    // A number over 1,000 in size.
    Span = 18,
}

// What an answered number is: the pattern's, the floor of -30 dBi, or that of an antenna whose peak is 0.
#[derive(Clone, Copy, Debug, PartialEq, Eq)]
pub enum Kind {
    Level,
    Floor,
    Silence,
}

impl From<Refusal> for u8 {
    ghost from_gives = { λ r n. n ≡ number r };

    fn from(r: Refusal) -> u8 {
        r as u8
    }
}
