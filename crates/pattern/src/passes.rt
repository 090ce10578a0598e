// The relative gains of a pass: around one elevation, and up at one azimuth.
ghost use Rattle.std.specs.Prelude.{◌≡◌, ◌≤◌, true, length};
ghost use Rattle.model.specs.Counts.{counts_ok};
ghost use Rattle.model.specs.Table.{table_size};
ghost use Rattle.pattern.specs.Passes.{gains_around, gains_up};

use crate::gainrel::relative_gain;
use model::checked::Checked;
use model::record::Model;
use std::array;

// The gains at the first n whole azimuths, at elevation u.
#[tactic(auto, unfolding(floats::specs::Filled::filled_to))]
pub fn gains_around(c: Checked<'_>, u: f32, n: u16) -> [f32; 360]
    requires { n ≤ 360 }
    ensures { result ≡ gains_around c.entry.model.now c.entry.table.now u n }
{
    let mut out = [0.0f32; 360];
    for v in 0..n {
        out[v as usize] = relative_gain(c, u, v as f32);
    }
    out
}

// The gains at the elevations 1 to 90, at azimuth v.
pub fn gains_up(c: Checked<'_>, v: f32) -> [f32; 90]
    ensures { result ≡ gains_up c.entry.model.now c.entry.table.now v 90 }
{
    array::from_fn(|i| relative_gain(c, (i + 1) as f32, v))
}

// Both of a record that is taken by value.
pub fn around(m: Model, table: &[f32], u: f32, n: u16) -> [f32; 360]
    requires { (counts_ok m ≡ true) × (table_size ≤ length table.now) × (n ≤ 360) }
    ensures { result ≡ gains_around m table.now u n }
{
    gains_around(Checked::of(&m, table), u, n)
}

pub fn up(m: Model, table: &[f32], v: f32) -> [f32; 90]
    requires { (counts_ok m ≡ true) × (table_size ≤ length table.now) }
    ensures { result ≡ gains_up m table.now v 90 }
{
    gains_up(Checked::of(&m, table), v)
}
