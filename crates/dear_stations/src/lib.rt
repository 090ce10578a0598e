// A station that takes 141 readings to set up, and a slewed one that takes 140
// (specs/DearestStations.antt). There is no code here: both are set up by computation
// (proofs/DearestStations.antt), for `dearest` of `claims`.

#![tactic(auto)]
