#![tactic(auto)]

// The directions of Planet pattern text (document 02, card 14), and the vertical part's numbers:
// `vertical::read_vertical` answers `numbers_to` of `vertical_gain` (specs/Directions.antt).
pub mod vertical;
