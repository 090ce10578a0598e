// `parmprec`: the ground-reflection tables. `ground_of` has those by elevation; `table_of` those
// by elevation and element, as one flat table.
ghost use Rattle.std.specs.Prelude.{◌≡◌, true, ℕ, ◌≤◌, ◌<◌, get_or};
ghost use Rattle.std.specs.Float.{nan};
ghost use Rattle.floats.specs.Ops.{◌⊗◌};
ghost use Rattle.model.specs.Counts.{elements_ok, counts_ok};
ghost use Rattle.model.specs.Types.{type_number};
ghost use Rattle.ground.specs.Ground.{ground_of};
ghost use Rattle.elevation.specs.Entry.{entry_of};
ghost use Rattle.ground.specs.Table.{row_to, elevations_to, table_of};

use elevation::reflection::Reflection;
use model::record::{Constants, Elements, Ground, Model, Trig};
use model::table::{SIZE, blank_table};
use model::types::AntennaType;

// Inner step of set-up, the tables by elevation: those of every type but 5 and 6, which leave 0.
#[tactic(auto, unfolding(crate::specs::Ground::ground_to, floats::specs::Filled::filled_to, crate::specs::Ground::ground_of))]
pub fn ground_of(iant: u32, k: Constants, t: Trig) -> Ground
    ensures { result ≡ ground_of iant k t }
{
    let mut g = Ground {
        w3: [0.0; 91],
        w4: [0.0; 91],
        w5: [0.0; 91],
        w6: [0.0; 91],
        w9: [0.0; 91],
        w10: [0.0; 91],
    };
    for u in 0..91 {
        let f = elevation::factors::factors_at(iant, k, t.a[u], t.b[u]);
        g.w3[u] = f.w3;
        g.w4[u] = f.w4;
        g.w5[u] = f.w5;
        g.w6[u] = f.w6;
        g.w9[u] = f.w9;
        g.w10[u] = f.w10;
    }
    g
}

// The active elements at elevation u, where the reflection is r and the phase delta for each
// unit of height.
#[tactic(auto, using(model::proofs::ActiveElements::active_below), unfolding(crate::specs::Table::row_to))]
fn fill_row(
    t: &mut [f32; SIZE],
    u: usize,
    kind: AntennaType,
    r: Reflection,
    delta: f32,
    elements: Elements,
)
    requires { (u < 91) × (elements.nat ≤ 30) × (elements_ok elements.iek elements.nat ≡ true) }
    ensures { t.new ≡ row_to (λ (i : ℕ). entry_of (type_number kind) r (delta ⊗ get_or elements.h i nan)) elements.iek u t.old elements.nat }
{
    for k in 0..elements.nat {
        let i = elements.iek[k + 1];
        let w = elevation::entry::entry_of(kind, r, delta * elements.h[i]);
        elevation::entry::put_entry(t, u, i, w);
    }
}

// All elevations. The source works the reflection out anew for each element; it is the same for
// all of them.
#[tactic(auto, using(model::proofs::ActiveElements::few_active, model::proofs::ActiveElements::active_named), unfolding(crate::specs::Table::elevations_to))]
fn fill_elevations(t: &mut [f32; SIZE], kind: AntennaType, m: Model)
    requires { (type_number kind ≡ m.iant) × (counts_ok m ≡ true) }
    ensures { t.new ≡ elevations_to m t.old 91 }
{
    let trig = m.trig;
    let elements = m.elements;
    for u in 0..91 {
        let a0 = trig.a[u];
        let r = elevation::reflection::refcof(a0, trig.b[u], m.constants.d1, m.constants.e1);
        let delta = elevation::entry::delta_of(kind, m.constants.beta, a0);
        fill_row(t, u, kind, r, delta, elements);
    }
}

// Inner step of set-up, for a record whose counts it has accepted: the flat table of the
// log-periodic types, blank for all others.
#[tactic(auto, using(model::proofs::TypeNumbers::untyped_no_boom), unfolding(crate::specs::Table::table_of))]
pub fn table_of(m: Model) -> [f32; SIZE]
    requires { counts_ok m ≡ true }
    ensures { result ≡ table_of m }
{
    let mut t = blank_table();
    match AntennaType::try_from(m.iant) {
        Ok(kind) if kind.is_log_periodic() => fill_elevations(&mut t, kind, m),
        _ => {}
    }
    t
}
