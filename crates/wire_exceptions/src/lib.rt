// A type 7 and a type 8 that break the mirror law (`rhombic` and `quadrant`, specs/Wires.antt). There is
// no code here: set-up and answers are computed (proofs/Wires.antt), for `exceptions` of `claims`.

#![tactic(auto)]
