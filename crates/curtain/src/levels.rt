// Many directions of a curtain by one factor: document 02's card 1.
ghost use Rattle.std.specs.Prelude.{◌≡◌, ℕ, ◌+◌, ◌/◌, ◌≤◌, length, take};
ghost use Rattle.answers.specs.Outcome.{outcome, outcome_as};
ghost use Rattle.curtain.specs.Levels as Levels;
ghost use Rattle.curtain_parameters.specs.Pattrn0 as Pattrn0;

use crate::level::{factor_of, graded, level_at};
use crate::refusal::check_station;
use answers::Refusal;
use numeric::float::is_finite;
use words::patterns::copy_part;

// The level at a pair of azimuth and elevation, of a station that has its factor.
#[tactic(auto, unfolding(crate::specs::Levels::pair_of))]
fn pair(parm: [f32; 20], factor: f32, azimd: f32, elevd: f32) -> Result<f32, Refusal>
    ensures { outcome result ≡ Levels.pair_of (Pattrn0.curtain_of parm) factor azimd elevd }
{
    if !(is_finite(azimd) & is_finite(elevd)) {
        return Err(Refusal::Value);
    }
    graded(level_at(parm, factor, azimd, elevd))
}

// The levels of the pairs, or the first refused pair's refusal. They wait in front of 64 floats until all
// exist: a refusal leaves the lent floats as they were.
#[tactic(auto, using(crate::proofs::InOrder::none_yet))]
fn pairs(parm: [f32; 20], factor: f32, directions: &[f32]) -> Result<[f32; 64], Refusal>
    requires { length directions.now / 2 ≤ 64 }
    ensures { (before : ℕ) → let n = length directions.now / 2 in outcome_as (λ levels. (take n levels, before + n)) result ≡ Levels.in_order (Levels.pair_at (Pattrn0.curtain_of parm) factor directions.now) before n }
{
    let mut levels = [0.0f32; 64];
    for k in 0..directions.len() / 2 {
        levels[k] = pair(parm, factor, directions[2 * k], directions[2 * k + 1])?;
    }
    Ok(levels)
}

// Whole pairs, at most 64, and a level for each.
#[tactic(auto, unfolding(crate::specs::Levels::space_ok))]
fn space_ok(floats: usize, levels: usize) -> bool
    ensures { result ≡ Levels.space_ok floats levels }
{
    (floats % 2 == 0) & (floats / 2 <= 64) & (levels == floats / 2)
}

// The readings that were taken for the levels at up to 64 pairs of azimuth and elevation, which are
// left in the lent floats; gnorm is the normalising factor, and -99999 asks for the integral, which is
// worked out once.
#[tactic(auto, using(answers::proofs::Outcome::refused_by, crate::proofs::levels::Steps::sizes, crate::proofs::FactorReadings::at_most), unfolding(crate::specs::Levels::levels_call, crate::specs::Levels::levels_of, crate::specs::Levels::left))]
pub fn levels(
    parm: [f32; 20],
    gnorm: f32,
    directions: &[f32],
    lent: &mut [f32],
) -> Result<u32, Refusal>
    ensures { (outcome result, lent.new) ≡ Levels.levels_call parm gnorm directions.now lent.old }
{
    check_station(parm, gnorm)?;
    if !space_ok(directions.len(), lent.len()) {
        return Err(Refusal::Space);
    }
    let factor = factor_of(parm, gnorm);
    let levels = pairs(parm, factor.value, directions)?;
    copy_part(&levels, 0, lent);
    Ok(factor.readings + (directions.len() / 2) as u32)
}
