#![tactic(auto)]

// The arithmetic of floats that all patterns share: Fortran's roundings and ranges, with the
// operations, literals and signs that definitions use (specs/).
pub mod range;
pub mod rounding;
