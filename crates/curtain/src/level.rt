// The curtain's level in decibels: the end of the source's `gain`.
ghost use Rattle.std.specs.Prelude.{◌≡◌};
ghost use Rattle.answers.specs.Outcome.{outcome};
ghost use Rattle.curtain.specs.Answers as Answers;
ghost use Rattle.curtain.specs.Level as Level;
ghost use Rattle.curtain_parameters.specs.Pattrn0 as Pattrn0;

use answers::Refusal;
use curtain_parameters::direction::f2_of;
use curtain_parameters::pattrn0::curtain_of;
use curtain_pattern::azimuth::{behind, fold};
use curtain_pattern::constants::{D2R, PI};
use curtain_pattern::integral::{Read, dbltrap};
use numeric::float::is_finite;

// The normalising factor: -99999, which C callers and records have too, asks for the integral.
#[tactic(auto, unfolding(crate::specs::Level::factor_of, crate::specs::Level::factor_readings))]
pub(crate) fn factor_of(parm: [f32; 20], gnorm: f32) -> Read
    ensures value_value { result.value ≡ Level.factor_of (Pattrn0.curtain_of parm) gnorm }
    ensures readings_value { result.readings ≡ Level.factor_readings (Pattrn0.curtain_of parm) gnorm }
{
    if gnorm == -99999.0 {
        let found = dbltrap(curtain_of(parm));
        return Read {
            value: 4.0 * PI / found.value,
            readings: found.readings,
        };
    }
    Read {
        value: gnorm,
        readings: 0,
    }
}

// Decibels of the pattern xgain, -1000 where it is 0.
#[tactic(auto, unfolding(crate::specs::Level::decibels))]
fn decibels(xgain: f32, factor: f32) -> f32
    ensures { result ≡ Level.decibels xgain factor }
{
    if xgain != 0.0 {
        return 10.0 * logarithm::log10((xgain * factor).abs());
    }
    -1000.0
}

// The level at a direction in degrees, by the factor; backward radiation is 20 less.
#[tactic(auto, unfolding(crate::specs::Level::level_at))]
pub(crate) fn level_at(parm: [f32; 20], factor: f32, azimd: f32, elevd: f32) -> f32
    ensures { result ≡ Level.level_at (Pattrn0.curtain_of parm) factor azimd elevd }
{
    let azim = azimd * D2R;
    let xgain = f2_of(parm, elevd * D2R, fold(azim));
    let xgn = decibels(xgain, factor);
    if behind(azim) { xgn - 20.0 } else { xgn }
}

#[tactic(auto, unfolding(crate::specs::Level::level_of))]
pub(crate) fn level_of(parm: [f32; 20], azimd: f32, elevd: f32, gnorm: f32) -> f32
    ensures { result ≡ Level.level_of parm azimd elevd gnorm }
{
    let factor = factor_of(parm, gnorm);
    level_at(parm, factor.value, azimd, elevd)
}

// A level or a factor, or the refusal of a number that isn't finite.
#[tactic(auto, unfolding(crate::specs::Answers::graded))]
pub(crate) fn graded(xgn: f32) -> Result<f32, Refusal>
    ensures { outcome result ≡ Answers.graded xgn }
{
    if is_finite(xgn) {
        return Ok(xgn);
    }
    Err(Refusal::Level)
}
