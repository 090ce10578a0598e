#![tactic(auto)]

// What the exercise board (`board`) keeps at each of 360 azimuths: the greatest number's bits and the
// id that has it. Inner steps of the board's calls, each over all azimuths: nobody on, one more, nobody
// where the one gone was shown, one more only there (specs/Steps.antt); and whether two lists of words
// are the same.
pub mod kept;
