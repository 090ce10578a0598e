#![tactic(auto)]

// What one elevation gives to the tables that set-up leaves, inner steps of `ground`: `refcof` is `ref_cof`,
// `factors_at` is `factors_at` and `entry_of` is `entry_of`, for every argument.
pub mod entry;
pub mod factors;
pub mod reflection;
