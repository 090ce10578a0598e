#![tactic(auto)]

// The maximum gain of an antenna at a frequency, and the parameters that it is set up with.
// `setmaxgain` answers any inputs: with the source's gain and the twenty parameters, their slots
// changed, or with the lowest number that document 01 refuses them for (specs/Maximum.antt,
// `set_max_gain`). Each number comes only on its condition (`refusals` of crate `claims`).
pub mod maximum;
mod refusal;

ghost use Rattle.std.specs.Prelude.{◌≡◌};
ghost use Rattle.answers.specs.Outcome.{outcome_as};
ghost use Rattle.maxgain.specs.Maximum.{gain_and_parm, set_max_gain};

use answers::Refusal;
use maximum::{Found, find, grade};
use refusal::check;
use station::Station;

// `setmaxgain`: the maximum gain at mhz by the station's mode, with the parameters' changed slots: mode
// 0 takes slot 0, mode 1 the gains by frequency ratio, mode 2 the gains per MHz.
#[tactic(auto, using(answers::proofs::Outcome::refused_by, answers::proofs::Outcome::granted_by, crate::proofs::Refusals::met), unfolding(crate::specs::Maximum::set_max_gain))]
pub fn setmaxgain(s: Station, mhz: f32, design: f32) -> Result<Found, Refusal>
    ensures { outcome_as gain_and_parm result ≡ set_max_gain s.mode s.parm s.gainmax s.gainmaxb mhz design }
{
    let kind = check(s, mhz, design)?;
    grade(find(s, kind, mhz, design))
}
