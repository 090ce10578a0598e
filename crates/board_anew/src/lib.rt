#![tactic(auto)]

// What the exercise board (`board`) keeps, worked out from the stations' places: afresh, or anew where
// the one gone was shown. Inner steps of the board's calls; a place more is one step of `board_kept`,
// and the laws of such a step stand in proofs/Keeping.antt.
pub mod kept;
