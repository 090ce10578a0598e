// `gainrel`: the relative gain at an elevation and an azimuth, in degrees. The record is lent and read
// in place: one of 4 kB handed on by value is copied for each reading.
ghost use Rattle.std.specs.Prelude.{◌≡◌, ◌≤◌, true, length};
ghost use Rattle.model.specs.Counts.{counts_ok};
ghost use Rattle.model.specs.Table.{table_size};
ghost use Rattle.model.specs.Types.{type_number};
ghost use Rattle.directions.specs.Azimuth.{behind_screen};
ghost use Rattle.pattern.specs.Gainrel.{factors_in, gain_in, gain_rel};

use booms::boom::{active_field, both_fields, one_field};
use dipole_arrays::dipoles::{gain_1, gain_2, gain_3, gain_4};
use directions::azimuth::{behind_screen, direction_of, quadrant_of};
use floats::rounding::ifix;
use model::checked::Checked;
use model::record::{Direction, Factors, Ground, Model};
use model::types::AntennaType;
use rhombic_crossed::crossed::gain_89;
use rhombic_crossed::rhombic::gain_7;

// The ground factors at the elevation iu.
#[tactic(auto, unfolding(crate::specs::Gainrel::factors_in))]
fn factors_in(g: &Ground, iu: usize) -> Factors
    requires { iu ≤ 90 }
    ensures { result ≡ factors_in g.now iu }
{
    Factors {
        w3: g.w3[iu],
        w4: g.w4[iu],
        w5: g.w5[iu],
        w6: g.w6[iu],
        w9: g.w9[iu],
        w10: g.w10[iu],
    }
}

// The `match` on the type, in the direction d at azimuth v.
#[tactic(auto, unfolding(crate::specs::Gainrel::gain_in, booms::specs::Boom::gain5, booms::specs::Boom::gain6, model::specs::Types::crossed_type))]
fn gain_of(c: Checked<'_>, kind: AntennaType, iu: usize, d: Direction, v: f32) -> f32
    requires { (type_number kind ≡ c.model.now.iant) × (iu ≤ 90) }
    ensures { result ≡ gain_in c.entry.model.now c.entry.table.now iu d (behind_screen v) }
{
    let k = c.model.constants;
    let w = factors_in(&c.model.ground, iu);
    match kind {
        AntennaType::Multiband => gain_1(k, w, d, behind_screen(v)),
        AntennaType::CentreFed => gain_2(k, w, d),
        AntennaType::EndFed => gain_3(k, w, d),
        AntennaType::Tropical => gain_4(k, w, d),
        AntennaType::HorizontalLogPeriodic => both_fields(active_field(c, false, iu, d), d),
        AntennaType::VerticalLogPeriodic => one_field(active_field(c, true, iu, d)),
        AntennaType::Rhombic => gain_7(k, w, d),
        AntennaType::Quadrant | AntennaType::CrossedDipoles => gain_89(kind, k, w, d),
    }
}

// The same of any record; 0 of a type that is none.
#[tactic(auto, using(crate::proofs::gainrel::Untyped::silent))]
pub(crate) fn gain_in(c: Checked<'_>, iu: usize, d: Direction, v: f32) -> f32
    requires { iu ≤ 90 }
    ensures { result ≡ gain_in c.entry.model.now c.entry.table.now iu d (behind_screen v) }
{
    match c.kind {
        Some(kind) => gain_of(c, kind, iu, d, v),
        None => 0.0,
    }
}

// Inner step of search, row and gain, which refuse other records and shorter tables first.
#[tactic(auto, unfolding(crate::specs::Gainrel::gain_rel))]
pub fn relative_gain(c: Checked<'_>, u: f32, v: f32) -> f32
    ensures { result ≡ gain_rel c.entry.model.now c.entry.table.now u v }
{
    let iu = ifix(u);
    let d = direction_of(&c.model.trig, iu, quadrant_of(v));
    gain_in(c, iu, d, v)
}

// The same of a record that is taken by value.
pub fn gainrel(m: Model, table: &[f32], u: f32, v: f32) -> f32
    requires { (counts_ok m ≡ true) × (table_size ≤ length table.now) }
    ensures { result ≡ gain_rel m table.now u v }
{
    relative_gain(Checked::of(&m, table), u, v)
}
