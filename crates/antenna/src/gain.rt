// `ccirgain`: the gain at a direction, with its kind.
ghost use Rattle.std.specs.Prelude.{◌≡◌};
ghost use Rattle.answers.specs.Outcome.{outcome_as};
ghost use Rattle.antenna.specs.Gain.{floored, ratio_level, decibels_of, kind_of, graded, gain_asked, gain_of, told};
ghost use Rattle.antenna.specs.TableSum.{own_table};

use crate::asked::{Asked, check};
use crate::record::Antenna;
use crate::sum::has_sum;
use answers::{Kind, Refusal};
use numeric::float::is_finite;
use pattern::gainrel::relative_gain;

// A gain in dBi with its kind.
#[derive(Clone, Copy, Debug, PartialEq)]
pub struct Gain {
    pub kind: Kind,
    pub number: f32,
}

#[tactic(auto, unfolding(crate::specs::Gain::floored))]
fn floor(x: f32) -> f32
    ensures { result ≡ floored x }
{
    if x < -30.0 { -30.0 } else { x }
}

// 20 log10 of the ratio dgs to the peak, -30 from its limit down.
#[tactic(auto, unfolding(crate::specs::Gain::ratio_level))]
fn ratio_level(dgs: f32) -> f32
    ensures { result ≡ ratio_level dgs }
{
    if dgs <= 0.03162278 {
        -30.0
    } else {
        20.0 * logarithm::log10(dgs)
    }
}

// The relative gain z9 over the peak z6, with the maximum gain added. Inner step: of gain and row.
#[tactic(auto, unfolding(crate::specs::Gain::decibels_of))]
pub fn decibels(z9: f32, z6: f32, giso: f32) -> f32
    ensures { result ≡ decibels_of z9 z6 giso }
{
    if z6 == 0.0 {
        return -30.0;
    }
    let g9 = floor(ratio_level(z9 / z6));
    floor(g9 + giso)
}

// The kind of the number g, beside the peak z6.
#[tactic(auto, unfolding(crate::specs::Gain::kind_of))]
pub fn kind_of(z6: f32, g: f32) -> Kind
    ensures { result ≡ kind_of z6 g }
{
    if z6 == 0.0 {
        return Kind::Silence;
    }
    if g == -30.0 { Kind::Floor } else { Kind::Level }
}

// The number g with its kind, beside the peak z6.
#[tactic(auto, unfolding(crate::specs::Gain::graded))]
pub fn grade(z6: f32, g: f32) -> Result<Gain, Refusal>
    ensures { outcome_as told result ≡ graded z6 g }
{
    if !is_finite(g) {
        return Err(Refusal::Level);
    }
    Ok(Gain {
        kind: kind_of(z6, g),
        number: g,
    })
}

// What a gain asks: its elevation is any, and it needs no space.
#[tactic(auto, unfolding(crate::specs::Gain::gain_asked))]
fn gain_asked(own: bool, u: f32, v: f32, giso: f32) -> Asked
    ensures { result ≡ gain_asked own u v giso }
{
    let values = is_finite(u) & is_finite(v) & is_finite(giso);
    Asked {
        values,
        aim: true,
        space: true,
        own,
    }
}

// `ccirgain`, told whether the table is the record's own: an inner step of callers that know it, and
// ask many gains.
#[tactic(auto, using(answers::proofs::Outcome::refused_by, answers::proofs::Outcome::granted_by, crate::proofs::Granted::granted), unfolding(crate::specs::Gain::gain_of, crate::specs::Gain::number_at))]
pub fn gain_told(
    ant: Antenna,
    table: &[f32],
    own: bool,
    u: f32,
    v: f32,
    giso: f32,
) -> Result<Gain, Refusal>
    requires { own ≡ own_table ant table.now }
    ensures { outcome_as told result ≡ gain_of ant table.now u v giso }
{
    let c = check(&ant.model, table, gain_asked(own, u, v, giso))?;
    let z6 = ant.peak.z6;
    let z9 = relative_gain(c, u, v);
    grade(z6, decibels(z9, z6, giso))
}

// `ccirgain`: the gain at elevation u and azimuth v, with the maximum gain giso.
pub fn ccirgain(ant: Antenna, table: &[f32], u: f32, v: f32, giso: f32) -> Result<Gain, Refusal>
    ensures { outcome_as told result ≡ gain_of ant table.now u v giso }
{
    let own = has_sum(table, ant.sum);
    gain_told(ant, table, own, u, v, giso)
}
