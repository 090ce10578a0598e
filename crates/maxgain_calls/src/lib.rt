#![tactic(auto)]

// The maximum gain as `service` lends it, floats in and words out. `maximum::maxgain` and
// `preview::preview` take any mode and floats, and leave in lent words what `maxgain` answers of them
// (specs/Maximum.antt, specs/Preview.antt); a refusal leaves the words as they were.
pub mod maximum;
pub mod preview;
