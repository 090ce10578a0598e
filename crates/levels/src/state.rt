// The lent state, 66 words: a ring of 64 levels' bits, how many it holds, the next place.
ghost use Rattle.std.specs.Prelude.{◌≡◌, ◌≤◌, ◌<◌, length};
ghost use Rattle.std.specs.List.{list_all};
ghost use Rattle.answers.specs.Outcome.{number_of};
ghost use Rattle.levels.specs.State.{held, next, received, is_level, is_zero, next_ok, can_be_left};
ghost use Rattle.levels.specs.Answers.{refusal_of};

use answers::Refusal;
use numeric::bits::{bits_of, float_of};
use numeric::float::is_finite;

// Whether the words are the bits of finite floats: all are looked at, so that the compiler takes several
// in a turn.
fn all_levels(words: &[u32]) -> bool
    ensures { result ≡ list_all is_level words.now }
{
    words
        .iter()
        .fold(true, |ok, w| ok & is_finite(float_of(*w)))
}

// Whether the words are 0; all are looked at here too.
fn all_zero(words: &[u32]) -> bool
    ensures { result ≡ list_all is_zero words.now }
{
    words.iter().fold(true, |ok, w| ok & (*w == 0))
}

#[tactic(auto, unfolding(crate::specs::State::next_ok))]
fn next_ok(held: u32, next: u32) -> bool
    ensures { result ≡ next_ok held next }
{
    if held == 64 { next < 64 } else { next == held }
}

// Whether some run could leave these words.
#[tactic(auto, unfolding(crate::specs::State::can_be_left))]
pub(crate) fn left_by_a_run(state: &[u32]) -> bool
    ensures { result ≡ can_be_left state.now }
{
    if state.len() != 66 {
        return false;
    }
    let held = state[64];
    if held > 64 {
        return false;
    }
    if !next_ok(held, state[65]) {
        return false;
    }
    let n = held as usize;
    all_levels(&state[..n]) & all_zero(&state[n..64])
}

// Whether a level may be recorded.
#[tactic(auto, unfolding(crate::specs::Answers::refusal_of))]
pub(crate) fn check(state: &[u32], level: f32) -> Result<(), Refusal>
    ensures { number_of result ≡ refusal_of state.now level }
{
    if !is_finite(level) {
        return Err(Refusal::Value);
    }
    if !left_by_a_run(state) {
        return Err(Refusal::Space);
    }
    Ok(())
}

// One level more, over the earliest where the ring is full.
#[tactic(auto, unfolding(crate::specs::State::received))]
pub(crate) fn receive(state: &mut [u32], level: f32)
    requires { (length state.old ≡ 66) × (held state.old ≤ 64) × (next state.old < 64) }
    ensures { state.new ≡ received state.old level }
{
    let held = state[64];
    let next = state[65];
    state[next as usize] = bits_of(level);
    state[64] = (held + 1).min(64);
    state[65] = (next + 1) % 64;
}
