#![tactic(auto)]

// The direction that the patterns of types 1 to 9 read, an inner step of `pattern`: the azimuth
// folded into the first quadrant of the tables of sines and cosines (`quadrant_of`, `direction_of`,
// specs/Azimuth.antt), for every azimuth. Theorems on it: `direction_mirror` and `screen_mirror`, of
// the whole azimuths k and 360 - k (proofs/azimuth/Fold.antt).
pub mod azimuth;
mod turn;
