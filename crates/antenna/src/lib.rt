#![tactic(auto)]

// The antenna of twenty parameters: document 01, part 7. Each call takes any arguments, and its
// answer is its definition's, refusals and lent floats included:
//
// - `setup::antinit2`, set-up with the search for the pattern's maximum: `set_up_of`, and `lent_after`
//   for the lent table (specs/SetUp.antt);
// - `gain::ccirgain`, the gain at a direction: `gain_of` (specs/Gain.antt).
//
// The limits of the parameters and the constants of each type stand in `parameters`, the search in
// `search`, the plate row in `plate_row`, and which slot a refusal of set-up is about in `set_up_why`.
// What set-up accepts, and what is true of the answers, is proved in `antenna_laws`.
pub mod asked;
pub mod copy;
pub mod gain;
pub mod record;
pub mod setup;
pub mod sum;
