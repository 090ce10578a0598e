#![tactic(auto)]

// The twenty parameters, inner steps of set-up: their limits with the refusals that need no search
// (`limits::check` answers `refusal_of`, specs/Limits.antt), where the search starts, and the constants of
// each type (`constants::constants_of` is `constants_of`, specs/TypeConstants.antt). Each takes any type
// and any twenty floats.
pub mod constants;
pub mod limits;
pub mod whole;
