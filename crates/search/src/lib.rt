#![tactic(auto)]

// The search for the pattern's maximum, document 01, part 6: an inner step of set-up. `gainorm` is
// `gainorm_of` (specs/Search.antt), for every record whose counts are accepted (`counts_ok`), every
// table of at least `table_size` floats and every start; `search_peak` is the same of a `Checked`. Of
// its definition it is proved that the peak is the greatest of 0 and what its last passes read, and
// where it stands (proofs/Peak.antt).
pub mod gainorm;
pub mod record;
