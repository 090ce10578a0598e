#![tactic(auto)]

// The antenna record as 998 words, in the record's field order: for callers that keep it between
// calls. `put_antenna` writes them (`antenna_words`, specs/Fields.antt), `antenna_in` reads any
// words (`antenna_in`, specs/Reading.antt).
//
// `antenna_in_words` (proofs/RoundTrip.antt): reading what was written gives the record back.
mod counts;
mod reading;
mod writing;

pub use reading::antenna_in;
pub use writing::put_antenna;
