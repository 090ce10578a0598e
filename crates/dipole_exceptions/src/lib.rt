// A type 2 that breaks the mirror law, at 90 and 270 and, slewed, at 1 and 359 (`dipoles`,
// specs/Dipoles.antt). There is no code here: set-up and answers are computed (proofs/Dipoles.antt), for
// `exceptions` of `claims`.

#![tactic(auto)]
