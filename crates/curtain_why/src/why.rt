// Which slot a curtain's refusal is about.
ghost use Rattle.std.specs.Prelude.{◌≡◌};
ghost use Rattle.answers.specs.Outcome.{number};
ghost use Rattle.slots.specs.Told.{told_of};
ghost use Rattle.curtain_why.specs.Why.{broken, why_of};

use answers::Refusal;
use floats::range::is_between;
use model::limits::in_band;
use numeric::float::is_finite;
use slots::{Broken, lowest_broken};

// Whether the number x in slot s breaks a limit.
#[tactic(auto, unfolding(crate::specs::Why::broken))]
fn is_broken(limit: Refusal, s: usize, x: f32) -> bool
    ensures { result ≡ broken (number limit) s x }
{
    match limit {
        Refusal::Value => !is_finite(x),
        Refusal::Band => ((s == 4) | (s == 7)) & !in_band(x),
        Refusal::Aim => (s == 14) & !is_between(x, -90.0, 90.0),
        _ => false,
    }
}

// The lowest number that a curtain's station is refused under for a slot's sake, and the lowest slot
// that breaks it.
#[tactic(auto, unfolding(crate::specs::Why::why_of, crate::specs::Why::breaks))]
pub fn why(p: [f32; 20]) -> Option<Broken>
    ensures { told_of result ≡ why_of p }
{
    lowest_broken(|limit, s| is_broken(limit, s, p[s]))
}
