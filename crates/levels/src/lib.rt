#![tactic(auto)]

// Document 02, card 13, the last sixty-four field strengths: the greatest, the least and how many of
// the last 64 levels of a run, or of all while there are fewer, kept in 66 lent words. Both calls
// are equations with specs/Answers.antt, for every state and level.
//
// `run_law` (specs/RunLaw.antt): a state is accepted just when some run leaves it; each record
// leaves the words that the longer run leaves, and answers what is taken from that run's own tail
// (specs/Run.antt); a level that isn't finite is refused, changes nothing and doesn't count.
// `extremes_law` (specs/ExtremesLaw.antt): the greatest and the least shown each beat all levels of
// the tail that were received earlier, and none received later beats them, so that of +0 and -0 the
// earlier stands; no other level does.
mod display;
mod extremes;
mod state;

ghost use Rattle.std.specs.Prelude.{◌≡◌};
ghost use Rattle.answers.specs.Outcome.{outcome};
ghost use Rattle.levels.specs.Answers.{record_of, state_after, show_of};

use answers::Refusal;
use display::shown;
use state::{check, left_by_a_run, receive};

// What the trainer's screen shows: how many levels are held, the greatest and the least of them.
#[derive(Clone, Copy, Debug, PartialEq)]
pub struct Levels {
    pub held: u32,
    pub greatest: f32,
    pub least: f32,
}

// One level more, and what is shown then; a refusal leaves the state as it was.
#[tactic(auto, using(answers::proofs::Outcome::refused_by, answers::proofs::Outcome::granted_by, crate::proofs::Acceptance::kept_by, crate::proofs::Acceptance::changed_by, crate::proofs::Acceptance::takes_more, crate::proofs::Acceptance::readable_more), unfolding(crate::specs::Answers::record_of, crate::specs::Answers::state_after))]
pub fn record(state: &mut [u32], level: f32) -> Result<Option<Levels>, Refusal>
    ensures value { outcome result ≡ record_of state.old level }
    ensures state_after { state.new ≡ state_after state.old level }
{
    check(state, level)?;
    receive(state, level);
    Ok(shown(state))
}

// What is shown, nothing before the first level.
#[tactic(auto, using(crate::proofs::Acceptance::readable_left), unfolding(crate::specs::Answers::show_of))]
pub fn show(state: &[u32]) -> Result<Option<Levels>, Refusal>
    ensures { outcome result ≡ show_of state.now }
{
    if !left_by_a_run(state) {
        return Err(Refusal::Space);
    }
    Ok(shown(state))
}
