#![tactic(auto)]

// The NTIA curtain, the source's module `curtain`. `gain` answers any twenty parameters, direction
// and factor: with the source's level, or with the lowest number that document 01 refuses them for
// (specs/Answers.antt, `curtain_gain`). A curtain whose rounded slew is -3 to 3, which is where its
// slew step is 0 (`step-zero`), answers alike at an azimuth and at its negative (`curtain-mirror`;
// both in proofs/Unslewed.antt). `factor` tells what the integral finds (specs/Factor.antt,
// `factor_found`): asked with it, a curtain answers in every direction what it answers with -99999
// (`factor_answers`, proofs/FactorAnswers.antt). `levels::levels` answers up to 64 directions from one
// integral, with the readings that it took (specs/Levels.antt, `levels_call`): each level is what `gain`
// answers there (`each_level`, proofs/Directions.antt).
mod level;
pub mod levels;
mod refusal;

ghost use Rattle.std.specs.Prelude.{◌≡◌};
ghost use Rattle.answers.specs.Outcome.{outcome};
ghost use Rattle.curtain.specs.Answers.{curtain_gain};
ghost use Rattle.curtain.specs.Factor.{factor_found};

use answers::Refusal;
use level::{factor_of, graded, level_of};
use refusal::{check, check_station};

// The gain at azimd degrees off boresight and elevd degrees of elevation. gnorm is the normalising
// factor; -99999 asks for the integral.
#[tactic(auto, using(answers::proofs::Outcome::refused_by, answers::proofs::Outcome::granted_by), unfolding(crate::specs::Answers::curtain_gain))]
pub fn gain(parm: [f32; 20], azimd: f32, elevd: f32, gnorm: f32) -> Result<f32, Refusal>
    ensures { outcome result ≡ curtain_gain parm azimd elevd gnorm }
{
    check(parm, azimd, elevd, gnorm)?;
    graded(level_of(parm, azimd, elevd, gnorm))
}

// The factor that the integral finds, to ask many directions with: a number as a level is one, or
// the station's refusal, or that of a number that isn't finite.
#[tactic(auto, using(answers::proofs::Outcome::refused_by, answers::proofs::Outcome::granted_by), unfolding(crate::specs::Factor::factor_found))]
pub fn factor(parm: [f32; 20]) -> Result<f32, Refusal>
    ensures { outcome result ≡ factor_found parm }
{
    check_station(parm, -99999.0)?;
    graded(factor_of(parm, -99999.0).value)
}
