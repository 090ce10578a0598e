// What can be wrong with a card.
use answers::Refusal;

#[derive(Clone, Copy, Debug, PartialEq, Eq)]
pub enum Fault {
    // The line's first word names no field.
    Unknown,
    // The field stands in this earlier line too.
    Twice(usize),
    // The card's kind doesn't have the field: another type has it, or another mode.
    Foreign,
    TooFew,
    TooMany,
    NotANumber,
    TooLarge,
    // The number breaks this refusal's limit.
    Limit(Refusal),
    Missing,
}

// What is wrong; the line, from 1; the field's number, 0 for none; which of the line's numbers it is,
// from 1, 0 for none of them.
#[derive(Clone, Copy, Debug, PartialEq, Eq)]
pub struct Mistake {
    pub what: Fault,
    pub line: usize,
    pub field: usize,
    pub number: usize,
}
