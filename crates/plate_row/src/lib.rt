#![tactic(auto)]

// The plate row, document 01, part 9: the gains around one elevation, with front-to-back. `row::row`
// takes any arguments, and its answer is `row_of`, the lent row afterwards `row_after` (specs/Row.antt),
// refusals included. That its numbers are the gain's, with its kinds, and what front-to-back says is
// proved in `antenna_laws`; what a greatest entry is in proofs/Greatest.antt.
mod behind;
pub mod row;
