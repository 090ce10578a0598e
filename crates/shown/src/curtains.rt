// The plate of a curtain: its levels around one elevation, with one factor.
ghost use Rattle.std.specs.Prelude.{◌≡◌};
ghost use Rattle.answers.specs.Outcome.{outcome, outcome_as, number_of};
ghost use Rattle.curtain.specs.Answers.{station_refusal_of};
ghost use Rattle.shown.specs.Plate.{entries_of, plate_of};
ghost use Rattle.shown.specs.CurtainPlate.{no_factor, listed_factor, factor_of, curtain_refusal, level_at, curtain_plate};

use crate::gains::in_hundredths;
use answers::{Kind, Refusal};
use curtain::{factor, gain};
use curtain_why::why::why;
use dial::Row;
use numeric::float::{is_finite, to_usize};
use plate_row::row::elevation_ok;
use station::Station;

// Whether a curtain may have these parameters, or its refusal.
fn check_station(parm: [f32; 20]) -> Result<(), Refusal>
    ensures { number_of result ≡ station_refusal_of parm no_factor }
{
    match why(parm) {
        Some(broken) => Err(broken.refusal),
        None => Ok(()),
    }
}

// What is tested before the factor is looked for.
#[tactic(auto, unfolding(crate::specs::CurtainPlate::curtain_refusal))]
fn check(parm: [f32; 20], mhz: f32, design: f32, u: f32) -> Result<(), Refusal>
    ensures { number_of result ≡ curtain_refusal parm mhz design u }
{
    if !(is_finite(mhz) & is_finite(design) & is_finite(u)) {
        return Err(Refusal::Value);
    }
    check_station(parm)?;
    if !elevation_ok(u) {
        return Err(Refusal::Aim);
    }
    Ok(())
}

// The factor that the record lists at slot 4's whole MHz.
#[tactic(auto, unfolding(crate::specs::CurtainPlate::listed_factor))]
fn listed_factor(s: Station) -> f32
    ensures { result ≡ listed_factor s }
{
    match to_usize(s.parm[4]) {
        mhz @ 1..=30 => s.gainmaxb[mhz - 1],
        _ => -99999.0,
    }
}

// The factor of all levels: listed, or found once by the integral.
#[tactic(auto, unfolding(crate::specs::CurtainPlate::factor_of))]
fn factor_of(s: Station) -> Result<f32, Refusal>
    ensures { outcome result ≡ factor_of s }
{
    let listed = listed_factor(s);
    if listed == -99999.0 {
        return factor(s.parm);
    }
    Ok(listed)
}

// The plate of the levels that this factor gives.
fn show_levels(parm: [f32; 20], factor: f32, u: f32) -> Result<Row, Refusal>
    ensures { outcome_as entries_of result ≡ plate_of (level_at parm factor u) }
{
    let mut levels = [0.0f32; 360];
    for v in 0..360u16 {
        levels[v as usize] = gain(parm, v as f32, u, factor)?;
    }
    in_hundredths(&levels, [Kind::Level; 360])
}

// The plate of a curtain's record, with what stands behind it.
#[tactic(auto, using(answers::proofs::Outcome::refused_by, answers::proofs::Outcome::granted_by), unfolding(crate::specs::CurtainPlate::curtain_plate, request::specs::Request::and_then))]
pub(crate) fn show_curtain(s: Station, mhz: f32, design: f32, u: f32) -> Result<Row, Refusal>
    ensures { outcome_as entries_of result ≡ curtain_plate s mhz design u }
{
    check(s.parm, mhz, design, u)?;
    let factor = factor_of(s)?;
    show_levels(s.parm, factor, u)
}
