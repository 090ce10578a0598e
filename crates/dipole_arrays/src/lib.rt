#![tactic(auto)]

// The patterns of the dipole arrays, types 1 to 4, at one direction, inner steps of `pattern`:
// `gain_1` to `gain_4` are `gain1` to `gain4` (specs/Dipoles.antt), for every constants, ground
// factors and direction.
pub mod dipoles;
