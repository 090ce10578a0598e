// Why a curtain is refused before its level is computed: the first number of document 01's table.
ghost use Rattle.std.specs.Prelude.{◌≡◌};
ghost use Rattle.answers.specs.Outcome.{number_of};
ghost use Rattle.curtain.specs.Answers as Answers;

use answers::Refusal;
use floats::range::{all_finite, is_between};
use model::limits::in_band;
use numeric::float::is_finite;

#[tactic(auto, unfolding(crate::specs::Answers::station_finite))]
fn station_finite(parm: [f32; 20], gnorm: f32) -> bool
    ensures { result ≡ Answers.station_finite parm gnorm }
{
    all_finite(&parm) & is_finite(gnorm)
}

// Operating and design MHz.
#[tactic(auto, unfolding(crate::specs::Answers::band_ok))]
fn band_ok(parm: [f32; 20]) -> bool
    ensures { result ≡ Answers.band_ok parm }
{
    in_band(parm[4]) & in_band(parm[7])
}

// The slew.
#[tactic(auto, unfolding(crate::specs::Answers::aim_ok))]
fn aim_ok(parm: [f32; 20]) -> bool
    ensures { result ≡ Answers.aim_ok parm }
{
    is_between(parm[14], -90.0, 90.0)
}

// Of a station with its factor, in any direction.
#[tactic(auto, unfolding(crate::specs::Answers::station_refusal_of))]
pub(crate) fn check_station(parm: [f32; 20], gnorm: f32) -> Result<(), Refusal>
    ensures { number_of result ≡ Answers.station_refusal_of parm gnorm }
{
    if !station_finite(parm, gnorm) {
        return Err(Refusal::Value);
    }
    if !band_ok(parm) {
        return Err(Refusal::Band);
    }
    if !aim_ok(parm) {
        return Err(Refusal::Aim);
    }
    Ok(())
}

// Of a station in one direction. Value is the lowest number that a curtain is refused with, so the
// direction's goes before all of the station's.
#[tactic(auto, unfolding(crate::specs::Answers::refusal_of))]
pub(crate) fn check(parm: [f32; 20], azimd: f32, elevd: f32, gnorm: f32) -> Result<(), Refusal>
    ensures { number_of result ≡ Answers.refusal_of parm azimd elevd gnorm }
{
    if !(is_finite(azimd) & is_finite(elevd)) {
        return Err(Refusal::Value);
    }
    check_station(parm, gnorm)
}
