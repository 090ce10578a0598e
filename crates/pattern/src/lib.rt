#![tactic(auto)]

// The relative gain of antenna types 1 to 9 at one direction, an inner step of search and gain:
// `gainrel` is `gain_rel`, for every record whose counts are accepted (`counts_ok`), every table of
// at least `table_size` floats, every elevation and azimuth. Theorems on it: `gain_rel-mirror` (the
// mirror law over the whole azimuths, types 1 to 6), `gain_rel_crossed` (type 9), `gain_rel_table`
// (the table's first `table_size` floats are all that it reads), `untyped` (a type that is none has
// the gain 0). `passes::around` and `passes::up` are its answers around one elevation and up at one
// azimuth (`around_at`, `up_at`). These three take the record by value; `relative_gain`,
// `gains_around` and `gains_up` are the same of a `Checked`, which lends it.
pub mod gainrel;
pub mod passes;
