// The maximum gain by the mode, and the parameters that it changes.
ghost use Rattle.std.specs.Prelude.{◌≡◌, true, ◌≤◌};
ghost use Rattle.model.specs.Limits.{in_band};
ghost use Rattle.model.specs.Types.{type_number};
ghost use Rattle.answers.specs.Outcome.{outcome_as};
ghost use Rattle.maxgain.specs.Maximum.{usable, designed, tuned, tuned_slots, by_ratio, by_mhz, as_given, found, gain_and_parm, graded};
ghost use Rattle.maxgain.specs.Refusals.{band_ok};

use answers::Refusal;
use floats::range::is_between;
use interpolation::{gainterb, gainterp};
use model::types::AntennaType;
use numeric::float::is_finite;
use station::Station;

// A maximum gain in dBi, with the twenty parameters that go with it.
#[derive(Clone, Copy, Debug, PartialEq)]
pub struct Found {
    pub gain: f32,
    pub parm: [f32; 20],
}

// The operating and the design frequency in MHz.
#[derive(Clone, Copy)]
pub struct Tuning {
    pub foper: f32,
    pub fdesign: f32,
}

// x where it lies in 2..30 MHz, else other.
#[tactic(auto, unfolding(crate::specs::Maximum::usable))]
fn usable_or(x: f32, other: f32) -> f32
    ensures { result ≡ usable x other }
{
    if is_between(x, 2.0, 30.0) { x } else { other }
}

// The design frequency: a value in 0.7..1.4 is read as a frequency ratio.
#[tactic(auto, unfolding(crate::specs::Maximum::designed))]
fn designed_mhz(foper: f32, design: f32) -> f32
    ensures { result ≡ designed foper design }
{
    if is_between(design, 0.7, 1.4) {
        foper / design
    } else {
        design
    }
}

// The frequencies of mode 1.
#[tactic(auto, unfolding(crate::specs::Maximum::tuned))]
fn tuning_of(mhz: f32, design: f32) -> Tuning
    ensures { result ≡ tuned mhz design }
{
    let foper = usable_or(mhz, 10.0);
    let fdesign = usable_or(designed_mhz(foper, design), foper);
    Tuning { foper, fdesign }
}

// The parameters with both frequencies; type 8 has its design frequency in slot 5 too.
#[tactic(auto, unfolding(crate::specs::Maximum::tuned_slots))]
fn tuned_slots(mut parm: [f32; 20], kind: AntennaType, t: Tuning) -> [f32; 20]
    ensures { result ≡ tuned_slots parm (type_number kind) t }
{
    parm[4] = t.foper;
    parm[7] = t.fdesign;
    if kind == AntennaType::Quadrant {
        parm[5] = t.fdesign;
    }
    parm
}

// Mode 0: slot 0.
#[tactic(auto, unfolding(crate::specs::Maximum::as_given))]
fn as_given(parm: [f32; 20]) -> Found
    ensures { result ≡ as_given parm }
{
    Found {
        gain: parm[0],
        parm,
    }
}

// Mode 1: the gains by frequency ratio.
#[tactic(auto, unfolding(crate::specs::Maximum::by_ratio))]
fn by_ratio(parm: [f32; 20], kind: AntennaType, gainmax: [f32; 6], t: Tuning) -> Found
    ensures { result ≡ by_ratio parm (type_number kind) gainmax t }
{
    Found {
        gain: gainterp(gainmax, t.foper, t.fdesign, u32::from(kind)),
        parm: tuned_slots(parm, kind, t),
    }
}

// Mode 2: the gains per MHz.
#[tactic(auto, unfolding(crate::specs::Maximum::by_mhz))]
fn by_mhz(mut parm: [f32; 20], gainmaxb: [f32; 30], mhz: f32) -> Found
    requires { in_band mhz ≡ true }
    ensures { result ≡ by_mhz parm gainmaxb mhz }
{
    parm[4] = mhz;
    Found {
        gain: gainterb(gainmaxb, mhz),
        parm,
    }
}

// The gain by the station's mode.
#[tactic(auto, unfolding(crate::specs::Maximum::found, crate::specs::Refusals::band_ok))]
pub(crate) fn find(s: Station, kind: AntennaType, mhz: f32, design: f32) -> Found
    requires { (s.mode ≤ 2) × (band_ok s.mode mhz ≡ true) }
    ensures { result ≡ found s.mode (type_number kind) s.parm s.gainmax s.gainmaxb mhz design }
{
    match s.mode {
        0 => as_given(s.parm),
        1 => by_ratio(s.parm, kind, s.gainmax, tuning_of(mhz, design)),
        _ => by_mhz(s.parm, s.gainmaxb, mhz),
    }
}

// What was found, or the refusal of a gain that isn't finite.
#[tactic(auto, unfolding(crate::specs::Maximum::graded))]
pub(crate) fn grade(f: Found) -> Result<Found, Refusal>
    ensures { outcome_as gain_and_parm result ≡ graded f }
{
    if is_finite(f.gain) {
        Ok(f)
    } else {
        Err(Refusal::Level)
    }
}
