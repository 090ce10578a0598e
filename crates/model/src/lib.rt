#![tactic(auto)]

// The antenna record that set-up, search and gain hand on by value, and what they all read of it.
// Assumes nothing of a record that comes from outside: `counts_ok` says for every one whether the
// loops below may run by its counts (`counts_ok`, refusal 6 of document 01), a type is made of its
// number or refused (`AntennaType`), and `in_band` says whether a frequency is a legal one. A record
// whose loops may run, of whichever type or none, with a table that is long enough, is `Checked`. The
// lent table's layout stands in `table` alone (`cell`, `table_size`).
pub mod checked;
pub mod counts;
pub mod limits;
pub mod record;
pub mod table;
pub mod types;
