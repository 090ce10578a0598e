#![tactic(auto)]

// Which slot a refusal of set-up is about. `why::why` takes any twenty parameters, and its answer is
// `why_of` (specs/Why.antt): the lowest number that a slot breaks, and the lowest slot that breaks it,
// under set-up's own number (`why_number`, proofs/WhyNumber.antt).
pub mod why;
