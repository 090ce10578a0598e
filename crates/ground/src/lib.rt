#![tactic(auto)]

// The tables that set-up leaves, inner steps of it: `ground_of` is `ground_of`, for every argument;
// `table_of` is `table_of`, for every record whose counts are accepted (`counts_ok`). What they hold stands
// in the theorems `table_length` and `unfilled`.
pub mod parmprec;
