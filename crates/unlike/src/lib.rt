// What it is for a station to break the mirror law (`Unlike`, specs/Unlike.antt), and what has to be
// computed of one to show it (proofs/Computed.antt). There is no code here.

#![tactic(auto)]
