#![tactic(auto)]

// What Rust and C callers link: the functions of the layers below over plain numbers and slices. Each
// export is one call of the crate that has its body, under the same contract.
pub mod antennas;
pub mod boards;
pub mod books;
pub mod calendars;
pub mod cards;
pub mod curtains;
pub mod gains;
pub mod leaf;
pub mod maximum;
pub mod pictures;
pub mod plates;
pub mod preview;
pub mod record;
pub mod strengths;
pub mod whys;
