// The plate row: the numbers of `ccirgain` around one elevation, with front-to-back.
ghost use Rattle.std.specs.Prelude.{◌≡◌, ℕ, ◌≤◌, true, length, Float};
ghost use Rattle.answers.specs.Outcome.{outcome};
ghost use Rattle.floats.specs.Ops.{+0};
ghost use Rattle.floats.specs.Filled.{filled_to};
ghost use Rattle.plate_row.specs.Folded.{Mirrored};
ghost use Rattle.plate_row.specs.Row.{elevation_ok, row_to, row_asked, row_of, row_after};

use crate::behind::front_to_back;
use answers::Refusal;
use antenna::asked::{Asked, check};
use antenna::gain::decibels;
use antenna::record::Antenna;
use antenna::sum::has_sum;
use floats::range::{all_finite, is_between};
use model::checked::Checked;
use numeric::bits::bits_of;
use numeric::float::is_finite;
use parameters::whole::truncated;
use pattern::gainrel::relative_gain;
use pattern::passes::gains_around;

// A whole elevation from 0 to 90.
#[tactic(auto, unfolding(crate::specs::Row::elevation_ok))]
pub fn elevation_ok(u: f32) -> bool
    ensures { result ≡ elevation_ok u }
{
    let whole = truncated(u);
    is_between(u, 0.0, 90.0) & (u == whole)
}

// What a row asks, with n floats lent for it.
#[tactic(auto, unfolding(crate::specs::Row::row_asked))]
fn row_asked(own: bool, u: f32, giso: f32, n: usize) -> Asked
    ensures { result ≡ row_asked own u giso n }
{
    let values = is_finite(u) & is_finite(giso);
    Asked {
        values,
        aim: elevation_ok(u),
        space: n == 360,
        own,
    }
}

// Whether x is +0, by its bits.
fn is_plus_zero(x: f32) -> bool
    ensures { result ≡ true → x ≡ +0 }
{
    bits_of(x) == 0
}

// Whether the pattern is the same on both sides of the boresight: types 1 to 4 where the sine of
// the slew is +0, types 5 and 6.
#[tactic(auto, unfolding(model::specs::Types::array_type, model::specs::Types::log_periodic))]
fn folds(c: Checked<'_>) -> bool
    ensures { result ≡ true → (c.entry.model.now.iant ≤ 6) × (c.entry.model.now.iant ≤ 4 → c.entry.model.now.constants.sl ≡ +0) }
{
    match c.kind {
        Some(kind) if kind.is_array() => is_plus_zero(c.model.constants.sl),
        Some(kind) => kind.is_log_periodic(),
        None => false,
    }
}

// The numbers at the first n azimuths, worked out one by one.
#[tactic(auto, using(pattern::proofs::passes::Entries::around_at), unfolding(floats::specs::Filled::filled_to, antenna::specs::Gain::number_at))]
fn filled(c: Checked<'_>, z6: f32, u: f32, giso: f32, n: u16) -> [f32; 360]
    requires { n ≤ 360 }
    ensures { result ≡ row_to c.entry.model.now z6 c.entry.table.now u giso n }
{
    let gains = gains_around(c, u, n);
    let mut out = [0.0f32; 360];
    for v in 0..n as usize {
        out[v] = decibels(gains[v], z6, giso);
    }
    out
}

// A row by its half up to 180, folded over: each azimuth beyond has its mirror image's number, but
// for 270, where the source's fold breaks the symmetry.
fn folded(half: [f32; 360], west: f32) -> [f32; 360]
    ensures { (f : ℕ → Float) → Mirrored f → half ≡ filled_to f 360 181 → west ≡ f 270 → result ≡ filled_to f 360 360 }
{
    let mut out = half;
    for v in 181..360 {
        out[v] = if v == 270 { west } else { out[360 - v] };
    }
    out
}

// The numbers at azimuths 0 to 359.
fn numbers(c: Checked<'_>, z6: f32, u: f32, giso: f32) -> [f32; 360]
    ensures { result ≡ row_to c.entry.model.now z6 c.entry.table.now u giso 360 }
{
    if folds(c) {
        let half = filled(c, z6, u, giso, 181);
        let west = decibels(relative_gain(c, u, 270.0), z6, giso);
        return folded(half, west);
    }
    filled(c, z6, u, giso, 360)
}

// The row at elevation u, written into the lent floats once all its numbers exist; its answer is
// front-to-back, the entry at azimuth 0 less the greatest of those at 90 to 270.
#[tactic(auto, using(answers::proofs::Outcome::refused_by, answers::proofs::Outcome::granted_by, antenna::proofs::Granted::granted), unfolding(crate::specs::Row::row_of, crate::specs::Row::row_after, crate::specs::Row::written_after, crate::specs::Row::measured, crate::specs::Row::numbers_of, crate::specs::Row::row_asked))]
pub fn row(ant: Antenna, table: &[f32], u: f32, giso: f32, lent: &mut [f32]) -> Result<f32, Refusal>
    ensures result_value { outcome result ≡ row_of ant table.now u giso (length lent.old) }
    ensures lent_after { lent.new ≡ row_after ant table.now u giso lent.old }
{
    let own = has_sum(table, ant.sum);
    let c = check(&ant.model, table, row_asked(own, u, giso, lent.len()))?;
    let all = numbers(c, ant.peak.z6, u, giso);
    let ratio = front_to_back(all);
    let exist = all_finite(&all) & is_finite(ratio);
    if !exist {
        return Err(Refusal::Level);
    }
    lent.copy_from_slice(&all);
    Ok(ratio)
}
