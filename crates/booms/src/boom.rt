// The log-periodic antennas, types 5 and 6, at one direction.
ghost use Rattle.std.specs.Prelude.{◌≡◌, ◌≤◌, true, List, length, Float};
ghost use Rattle.model.specs.Counts.{elements_ok};
ghost use Rattle.model.specs.Table.{table_size};
ghost use Rattle.booms.specs.Boom.{entry_at, element_at, gamma_of, across_below, across_factor, upright_factor, add_across, add_upright, added, field_to, both_fields, one_field};
ghost use Rattle.booms.specs.Lists.{element_by, elements_by};

use model::checked::Checked;
use model::record::{Constants, Direction, Entry};
use model::table::{PART, ROW};

const Q1: f32 = 3.1415927 / 180.0;

// One element: half length, current, phase, and its place by type 5 and by type 6.
#[derive(Clone, Copy)]
pub struct Element {
    pub rl: f32,
    pub rim: f32,
    pub fi: f32,
    pub x: f32,
    pub y: f32,
}

// The field's sums: vertical (theta) and horizontal (phi), real and imaginary.
#[derive(Clone, Copy)]
pub struct Field {
    pub str: f32,
    pub sti: f32,
    pub sfr: f32,
    pub sfi: f32,
}

// Element i's ground factors at the elevation iu.
fn entry_at(table: &[f32], iu: usize, i: usize) -> Entry
    requires { (iu ≤ 90) × (i ≤ 30) × (table_size ≤ length table.now) }
    ensures { result ≡ entry_at table.now iu i }
{
    let at = iu * ROW + i;
    Entry {
        ww1: table[at],
        ww2: table[at + PART],
        ww3: table[at + 2 * PART],
        ww4: table[at + 3 * PART],
    }
}

// Element i.
fn element_at<'a>(
    fi: &'a [f32; 36],
    rim: &'a [f32; 36],
    x: &'a [f32; 36],
    y: &'a [f32; 36],
    rl: &'a [f32; 36],
    i: usize,
) -> Element
    requires { i ≤ 30 }
    ensures { result ≡ element_by fi.now rim.now x.now y.now rl.now i }
{
    Element {
        rl: rl[i],
        rim: rim[i],
        fi: fi[i],
        x: x[i],
        y: y[i],
    }
}

// The phase for each metre of x or y.
#[tactic(auto, unfolding(crate::specs::Boom::gamma_of))]
fn gamma_of(k: Constants, d: Direction) -> f32
    ensures { result ≡ gamma_of k d }
{
    let a12 = d.b1 * d.b0;
    let b3 = -a12 * k.costh + d.a0 * k.sinth;
    k.beta * b3 / k.costh
}

// What one horizontal element's own pattern is divided by.
#[tactic(auto, unfolding(crate::specs::Boom::across_below))]
fn across_below(d: Direction) -> f32
    ensures { result ≡ across_below d }
{
    1.0 - d.b0 * d.b0 * d.a1 * d.a1
}

// One horizontal element's own pattern, fg its electrical half length.
#[tactic(auto, unfolding(crate::specs::Boom::across_factor))]
fn across_factor(fg: f32, df: f32, d: Direction) -> f32
    ensures { result ≡ across_factor fg df d }
{
    (sine::cos(fg * d.b0 * d.a1) - sine::cos(fg)) / df
}

// One vertical element's own pattern.
#[tactic(auto, unfolding(crate::specs::Boom::upright_factor))]
fn upright_factor(fg: f32, d: Direction) -> f32
    ensures { result ≡ upright_factor fg d }
{
    (sine::cos(fg * d.a0) - sine::cos(fg)) / d.b0
}

// One horizontal element's field added to the sums; fti is its current times its own pattern.
#[tactic(auto, unfolding(crate::specs::Boom::add_across))]
fn add_across(fti: f32, phase: f32, w: Entry, s: Field) -> Field
    ensures { result ≡ add_across fti phase w s }
{
    let aw = sine::sin(phase);
    let bw = sine::cos(phase);
    let wr = aw * w.ww1 - bw * w.ww2;
    let wi = bw * w.ww1 + aw * w.ww2;
    let ur = bw * w.ww3 - aw * w.ww4;
    let ui = aw * w.ww3 + bw * w.ww4;
    Field {
        str: s.str + fti * wr,
        sti: s.sti + fti * wi,
        sfr: s.sfr + fti * ur,
        sfi: s.sfi + fti * ui,
    }
}

// One vertical element's field added to the sums.
#[tactic(auto, unfolding(crate::specs::Boom::add_upright))]
fn add_upright(fti: f32, phase: f32, w: Entry, s: Field) -> Field
    ensures { result ≡ add_upright fti phase w s }
{
    let aw = sine::sin(phase);
    let bw = sine::cos(phase);
    let ur = bw * w.ww1 - aw * w.ww2;
    let ui = bw * w.ww2 + aw * w.ww1;
    Field {
        sfr: s.sfr + fti * ur,
        sfi: s.sfi + fti * ui,
        ..s
    }
}

// One element's field added to the sums, type 6's where the elements are upright and else type 5's.
#[tactic(auto, unfolding(crate::specs::Boom::added))]
fn add_element(
    upright: bool,
    beta: f32,
    gamma: f32,
    df: f32,
    d: Direction,
    el: Element,
    w: Entry,
    s: Field,
) -> Field
    ensures { result ≡ added upright beta gamma df d el w s }
{
    let fg = beta * el.rl;
    if upright {
        let fti = el.rim * upright_factor(fg, d);
        return add_upright(fti, gamma * el.y + el.fi * Q1, w, s);
    }
    let fti = el.rim * across_factor(fg, df, d);
    add_across(fti, gamma * el.x + el.fi * Q1, w, s)
}

// The sums over the nat active elements, of the lists iek to rl, whatever their heights.
#[tactic(auto, using(model::proofs::ActiveElements::active_below), unfolding(crate::specs::Boom::field_to))]
pub fn field_of<'a>(
    upright: bool,
    k: Constants,
    nat: usize,
    iek: &'a [usize; 36],
    fi: &'a [f32; 36],
    rim: &'a [f32; 36],
    x: &'a [f32; 36],
    y: &'a [f32; 36],
    rl: &'a [f32; 36],
    table: &[f32],
    iu: usize,
    d: Direction,
) -> Field
    requires { (nat ≤ 30) × (elements_ok iek.now nat ≡ true) × (iu ≤ 90) × (table_size ≤ length table.now) }
    ensures { (h : List Float) → result ≡ field_to upright k (elements_by iek.now fi.now rim.now x.now y.now rl.now h nat) table.now iu d nat }
{
    let gamma = gamma_of(k, d);
    let df = across_below(d);
    let mut s = Field {
        str: 0.0,
        sti: 0.0,
        sfr: 0.0,
        sfi: 0.0,
    };
    for n in 0..nat {
        let i = iek[n + 1];
        let el = element_at(fi, rim, x, y, rl, i);
        s = add_element(upright, k.beta, gamma, df, d, el, entry_at(table, iu, i), s);
    }
    s
}

// The same of a record. Inner step: of `pattern`.
#[tactic(auto, using(model::proofs::ActiveElements::few_active, model::proofs::ActiveElements::active_named))]
pub fn active_field(c: Checked<'_>, upright: bool, iu: usize, d: Direction) -> Field
    requires { iu ≤ 90 }
    ensures { result ≡ field_to upright c.entry.model.now.constants c.entry.model.now.elements c.entry.table.now iu d c.entry.model.now.elements.nat }
{
    let e = &c.model.elements;
    field_of(
        upright,
        c.model.constants,
        e.nat,
        &e.iek,
        &e.fi,
        &e.rim,
        &e.x,
        &e.y,
        &e.rl,
        c.table,
        iu,
        d,
    )
}

// Type 5's gain from the sums.
#[tactic(auto, unfolding(crate::specs::Boom::both_fields))]
pub fn both_fields(s: Field, d: Direction) -> f32
    ensures { result ≡ both_fields s d }
{
    let etheta = root::sqrt(s.str * s.str + s.sti * s.sti) * d.a1 * d.a0;
    let efi = -root::sqrt(s.sfr * s.sfr + s.sfi * s.sfi) * d.b1;
    root::sqrt(etheta * etheta + efi * efi)
}

// Type 6's gain from the sums.
#[tactic(auto, unfolding(crate::specs::Boom::one_field))]
pub fn one_field(s: Field) -> f32
    ensures { result ≡ one_field s }
{
    root::sqrt(s.sfr * s.sfr + s.sfi * s.sfi)
}
