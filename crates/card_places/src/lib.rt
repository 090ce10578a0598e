#![tactic(auto)]

// Lines and words of a card's text by the line's number, which its sentences show. Each takes any text
// and any number.
pub mod places;
