#![tactic(auto)]

// Which slot a curtain's refusal is about. `why::why` takes any twenty parameters, and its answer is
// `why_of` (specs/Why.antt): the lowest number that a slot breaks, and the lowest slot that breaks it,
// under the station's own number (`why_number`, proofs/WhyNumber.antt).
pub mod why;
