#![tactic(auto)]

// The patterns of the log-periodic antennas, types 5 and 6, at one direction, inner steps of
// `pattern`: `field_of`, then `both_fields` or `one_field`, are `gain5` and `gain6`
// (specs/Boom.antt), for every list of active elements that is accepted (`elements_ok`) and every
// table of at least `table_size` floats; `active_field` is `field_of` of a `Checked`.
pub mod boom;
