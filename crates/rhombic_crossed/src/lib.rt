#![tactic(auto)]

// The patterns of the horizontal rhombic, type 7, the quadrant antenna, type 8, and the crossed
// dipoles, type 9, at one direction, inner steps of `pattern`: `gain_7` is `gain7`
// (specs/Rhombic.antt) and `gain_89` is `gain89` (specs/Crossed.antt), for every constants, ground
// factors and direction. Theorems on type 9: `gain9_mirror` and `gain9_behind`
// (proofs/crossed/Mirror.antt).
mod complex;
pub mod crossed;
pub mod rhombic;
