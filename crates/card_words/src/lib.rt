#![tactic(auto)]

// The pieces that a card's sentences are made of: what was typed, and numbers with what is said of
// them (specs/Pieces.antt), each in at most so many bytes.
pub mod pieces;
