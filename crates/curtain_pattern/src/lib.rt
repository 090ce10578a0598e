#![tactic(auto)]

// The NTIA curtain's power pattern, inner steps of `curtain`: `pattern` at one direction, with what
// its stacks, bays and dipoles give (specs/Pattern.antt, `f2`), the azimuth taken to the front
// (specs/Azimuth.antt, `folded`), and the pattern integrated over the forward hemisphere
// (specs/Integral.antt, `dbltrap`) in 16,471 readings (proofs/ReadingCount.antt). Without bay phases
// the pattern is the same at an azimuth and at its negative (`f2-mirror`, proofs/Mirror.antt).
pub mod azimuth;
pub mod constants;
pub mod integral;
pub mod pattern;
