#![tactic(auto)]

// The air of the exercise board (`board`): who is on, in sixteen places of lent words. Inner steps of
// the board's calls, over the board's definitions: stations and what is shown of them
// (specs/Stations.antt), joins and leaves (specs/Runs.antt), words (specs/Words.antt). `accepted` says
// which words are an air's (`air_ok`), `places` who has which place, and `change` puts one more on the
// air or one fewer (`air_of`). Stations have ranks at an azimuth, and the one shown has the highest
// (proofs/Ranks.antt).
pub mod accepted;
pub mod change;
pub mod places;

// The words of the air: how many are on, then sixteen places of an id and 360 numbers' bits.
pub const AIR: usize = 5777;
