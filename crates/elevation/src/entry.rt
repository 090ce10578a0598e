// `parmprec` for one element of a log-periodic at one elevation.
ghost use Rattle.std.specs.Prelude.{◌≡◌, ◌<◌};
ghost use Rattle.model.specs.Types.{type_number};
ghost use Rattle.elevation.specs.Entry.{delta_of, horizontal_entry, vertical_entry, entry_of, with_entry};

use crate::reflection::Reflection;
use model::record::Entry;
use model::table::{PART, ROW, SIZE};
use model::types::AntennaType;

// The phase for each unit of height.
#[tactic(auto, unfolding(crate::specs::Entry::delta_of))]
pub fn delta_of(kind: AntennaType, beta: f32, a0: f32) -> f32
    ensures { result ≡ delta_of (type_number kind) beta a0 }
{
    let delta = beta * 2.0 * a0;
    match kind {
        AntennaType::VerticalLogPeriodic => delta / 2.0,
        _ => delta,
    }
}

// The horizontal one, type 5: au and bu are the phase's sine and cosine.
#[tactic(auto, unfolding(crate::specs::Entry::horizontal_entry))]
fn horizontal_entry(r: Reflection, au: f32, bu: f32) -> Entry
    ensures { result ≡ horizontal_entry r au bu }
{
    Entry {
        ww1: 1.0 - r.t1 * bu - r.t2 * au,
        ww2: r.t1 * au - r.t2 * bu,
        ww3: 1.0 + r.t3 * bu + r.t4 * au,
        ww4: r.t4 * bu - r.t3 * au,
    }
}

// The vertical one, type 6, which fills two of the four.
#[tactic(auto, unfolding(crate::specs::Entry::vertical_entry))]
fn vertical_entry(r: Reflection, au: f32, bu: f32) -> Entry
    ensures { result ≡ vertical_entry r au bu }
{
    Entry {
        ww1: (1.0 + r.t1) * bu + r.t2 * au,
        ww2: (1.0 - r.t1) * au + r.t2 * bu,
        ww3: 0.0,
        ww4: 0.0,
    }
}

// A type's entry, from the reflection and the element's phase.
#[tactic(auto, unfolding(crate::specs::Entry::entry_of))]
pub fn entry_of(kind: AntennaType, r: Reflection, phase: f32) -> Entry
    ensures { result ≡ entry_of (type_number kind) r phase }
{
    let au = sine::sin(phase);
    let bu = sine::cos(phase);
    match kind {
        AntennaType::VerticalLogPeriodic => vertical_entry(r, au, bu),
        _ => horizontal_entry(r, au, bu),
    }
}

// Inner step, for an elevation and an element of the table: the entry of element i at elevation u, put into the table's four parts.
#[tactic(auto, using(model::proofs::Cells::cell_0, model::proofs::Cells::cell_1, model::proofs::Cells::cell_2, model::proofs::Cells::cell_3), unfolding(crate::specs::Entry::with_entry))]
pub fn put_entry(t: &mut [f32; SIZE], u: usize, i: usize, e: Entry)
    requires { (u < 91) × (i < 31) }
    ensures { t.new ≡ with_entry t.old u i e }
{
    let at = u * ROW + i;
    t[at] = e.ww1;
    t[at + PART] = e.ww2;
    t[at + 2 * PART] = e.ww3;
    t[at + 3 * PART] = e.ww4;
}
