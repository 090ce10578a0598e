#![tactic(auto)]

// The lines that programs print of answers. A gain's line is made from `antenna`'s own answer and
// says its azimuth, number and kind (`gain_line`), a refusal's says its number (`refusal_line`);
// specs/Lines.antt has both.
pub mod lines;
