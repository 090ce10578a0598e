#![tactic(auto)]

// What a card's sentence says of a field, after its name: a definition for each mistake
// (specs/Faults.antt) and for a remark, with which end of a limit a number breaks (specs/Limits.antt).
// Those that `card_words` writes in one call have no function here. Each is written in at most 128
// bytes.
pub mod faults;
mod limits;
