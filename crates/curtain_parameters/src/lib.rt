#![tactic(auto)]

// From a curtain's twenty parameters to its pattern, inner steps of `curtain`: what the stacks and
// the bays are fed with (specs/Excitation.antt), the tables that the integral reads
// (`pattrn0::curtain_of` is `curtain_of`, specs/Pattrn0.antt), and the pattern at one direction, which
// fills none (`direction::f2_of`). Each of the two takes any twenty floats.
mod counts;
pub mod direction;
mod excitation;
pub mod pattrn0;
