#![tactic(auto)]

// The elements of a log-periodic antenna, types 5 and 6. An inner step of set-up: `logparm` is
// `log_parm`, for every design of 2 to 30 elements, and the list of active elements that it leaves
// is one that the loops of gain may run by (`Listed`).
mod active;
mod current;
pub mod geometry;
pub mod logparm;
