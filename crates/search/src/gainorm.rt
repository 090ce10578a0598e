// The search for the pattern's maximum, `azmax` and `gainorm`, with the count of its readings.
// The elevation pass has its 90 gains from `gains_up`.
ghost use Rattle.std.specs.Prelude.{◌≡◌, ◌+◌, ◌^◌, ◌<◌, ◌≤◌, true, length};
ghost use Rattle.model.specs.Counts.{counts_ok};
ghost use Rattle.model.specs.Table.{table_size};
ghost use Rattle.search.specs.Search.{untold, tallied, plateau_centre, azmax_read, turns_in, azmax_of, sweep_read, sweep_of, plane_elevation, plane_of, plane_searched, aim_of, elevation_read, elevations_of, wrapped, refined_of, unrefined, last_searched, gainorm_of};
ghost use Rattle.search.specs.Turns.{turns, azmax_turn};

use crate::record::Peak;
use model::checked::Checked;
use model::record::Model;
use pattern::gainrel::relative_gain;
use pattern::passes::gains_up;

// The readings so far, and whether each of them was finite.
#[derive(Clone, Copy)]
pub struct Tally {
    pub readings: u64,
    pub sound: bool,
}

// A pass over azimuths under way: the largest gain, its azimuth, how many readings have equalled
// it, and the azimuth v to read next.
#[derive(Clone, Copy)]
pub struct Azimuths {
    pub rmax: f32,
    pub vmax: f32,
    pub j: u32,
    pub v: f32,
    pub tally: Tally,
}

// The azimuth of the elevation pass.
#[derive(Clone, Copy)]
pub struct Aimed {
    pub vmax: f32,
    pub tally: Tally,
}

// The pass over elevations under way: the largest gain and its elevation.
#[derive(Clone, Copy)]
pub struct Elevations {
    pub wmx: f32,
    pub umax: f32,
    pub tally: Tally,
}

#[derive(Clone, Copy)]
pub struct Search {
    pub peak: Peak,
    pub tally: Tally,
}

// Before any reading.
#[tactic(auto, unfolding(crate::specs::Search::untold))]
fn no_tally() -> Tally
    ensures { result ≡ untold }
{
    Tally {
        readings: 0,
        sound: true,
    }
}

// One more reading, of the gain z9.
#[tactic(auto, unfolding(crate::specs::Search::tallied))]
fn tally_of(t: Tally, z9: f32) -> Tally
    requires { t.readings < 2 ^ 40 }
    ensures { result ≡ tallied t z9 }
{
    Tally {
        readings: t.readings + 1,
        sound: t.sound & numeric::float::is_finite(z9),
    }
}

// The centre of a plateau of j readings that ends at v.
#[tactic(auto, unfolding(crate::specs::Search::plateau_centre))]
fn plateau_centre(vmax: f32, v: f32, j: u32) -> f32
    ensures { result ≡ plateau_centre vmax v j }
{
    if v != vmax {
        v - std::num::nearest_u32_to_f32(j) / 2.0 + 1.0
    } else {
        vmax
    }
}

// `azmax`'s rule for one reading: a new peak does not clear j.
#[tactic(auto, unfolding(crate::specs::Search::azmax_read))]
fn azmax_read(s: Azimuths, vm: f32, z9: f32) -> Azimuths
    requires { (s.j < 2 ^ 31) × (s.tally.readings < 2 ^ 40) }
    ensures { result ≡ azmax_read s vm z9 }
{
    let tally = tally_of(s.tally, z9);
    let v = s.v + vm;
    if z9 < s.rmax {
        return Azimuths {
            j: 0,
            v,
            tally,
            ..s
        };
    }
    if z9 > s.rmax {
        return Azimuths {
            rmax: z9,
            vmax: s.v,
            v,
            tally,
            ..s
        };
    }
    let j = s.j + 1;
    Azimuths {
        rmax: z9,
        vmax: plateau_centre(s.vmax, s.v, j),
        j,
        v,
        tally,
    }
}

// How often Fortran's DO loop turns, by its count as a real number.
#[tactic(auto, unfolding(crate::specs::Search::turns_in))]
fn turns_in(x: f32) -> u32
    ensures value { result ≡ turns_in x }
    ensures upper_bound { result < 2 ^ 31 }
{
    numeric::float::to_i32(x).max(0) as u32
}

// `count` readings, vm degrees apart.
#[tactic(auto, using(crate::proofs::gainorm::Readings::azmax_reads), unfolding(crate::specs::Turns::turns, crate::specs::Turns::azmax_turn))]
fn azmax_turns(c: Checked<'_>, u: f32, vm: f32, s: Azimuths, count: u32) -> Azimuths
    requires { (s.tally.readings < 2 ^ 36) × (s.j ≡ 0) × (count < 2 ^ 31) }
    ensures value { result ≡ turns (azmax_turn c.entry.model.now c.entry.table.now u vm) s count }
    ensures readings_value { result.tally.readings ≡ s.tally.readings + count }
{
    let mut out = s;
    for i in 0..count {
        out = azmax_read(out, vm, relative_gain(c, u, out.v));
    }
    out
}

// `azmax` from vmin1 to vmax1 in steps of vm.
#[tactic(auto, using(crate::proofs::gainorm::Turns::azmax_turned))]
fn azmax(
    c: Checked<'_>,
    u: f32,
    vmin1: f32,
    vmax1: f32,
    vm: f32,
    rmax0: f32,
    vmax0: f32,
    tally: Tally,
) -> Azimuths
    requires { (tally.readings < 2 ^ 36) }
    ensures value { result ≡ azmax_of c.entry.model.now c.entry.table.now u vmin1 vmax1 vm rmax0 vmax0 tally }
    ensures readings_bound { result.tally.readings < tally.readings + 2 ^ 31 }
{
    let count = turns_in((vmax1 - vmin1 + vm) / vm);
    let start = Azimuths {
        rmax: rmax0,
        vmax: vmax0,
        j: 0,
        v: vmin1,
        tally,
    };
    azmax_turns(c, u, vm, start, count)
}

// The sweep keeps the first of equal gains.
#[tactic(auto, unfolding(crate::specs::Search::sweep_read))]
fn sweep_read(s: Azimuths, z9: f32) -> Azimuths
    requires { s.tally.readings < 2 ^ 40 }
    ensures { result ≡ sweep_read s z9 }
{
    let tally = tally_of(s.tally, z9);
    let v = s.v + 10.0;
    if z9 > s.rmax {
        return Azimuths {
            rmax: z9,
            vmax: s.v,
            v,
            tally,
            ..s
        };
    }
    Azimuths { v, tally, ..s }
}

// Nineteen readings, 10 degrees apart, from 270 on.
#[tactic(auto, unfolding(crate::specs::Search::untold, crate::specs::Turns::turns, crate::specs::Turns::sweep_turn, crate::specs::Search::sweep_read, crate::specs::Search::tallied))]
fn sweep(c: Checked<'_>, u: f32, vmax: f32) -> Azimuths
    ensures value { result ≡ sweep_of c.entry.model.now c.entry.table.now u vmax }
    ensures readings_value { result.tally.readings ≡ 19 }
{
    let mut out = Azimuths {
        rmax: 0.0,
        vmax,
        j: 0,
        v: 270.0,
        tally: no_tally(),
    };
    for i in 0..19u32 {
        out = sweep_read(out, relative_gain(c, u, out.v));
    }
    out
}

#[tactic(auto, unfolding(crate::specs::Search::plane_elevation))]
fn plane_elevation(iant: u32) -> f32
    ensures { result ≡ plane_elevation iant }
{
    if iant == 4 { 45.0 } else { 5.0 }
}

// The horizontal plane of a slewed or tropical pattern, from the start azimuth vmax.
#[tactic(auto, unfolding(crate::specs::Search::plane_of))]
fn plane(c: Checked<'_>, vmax: f32) -> Aimed
    ensures value { result ≡ plane_of c.entry.model.now c.entry.table.now vmax }
    ensures readings_bound { result.tally.readings < 2 ^ 32 }
{
    let u = plane_elevation(c.model.iant);
    let s = sweep(c, u, vmax);
    let v = s.vmax;
    let r = azmax(c, u, v - 10.0, v + 10.0, 1.0, s.rmax, v, s.tally);
    Aimed {
        vmax: r.vmax,
        tally: r.tally,
    }
}

#[tactic(auto, unfolding(crate::specs::Search::plane_searched))]
fn plane_searched(iant: u32, slewed: bool) -> bool
    ensures { result ≡ plane_searched iant slewed }
{
    (iant == 4) | ((iant < 4) & slewed)
}

// The azimuth of the elevation pass.
#[tactic(auto, unfolding(crate::specs::Search::aim_of, crate::specs::Search::untold))]
fn aim(c: Checked<'_>, vmax: f32) -> Aimed
    ensures value { result ≡ aim_of c.entry.model.now c.entry.table.now vmax }
    ensures readings_bound { result.tally.readings < 2 ^ 32 }
{
    if plane_searched(c.model.iant, c.model.slewed) {
        return plane(c, vmax);
    }
    Aimed {
        vmax: 0.0,
        tally: no_tally(),
    }
}

// The elevation pass keeps the last of equal gains.
#[tactic(auto, unfolding(crate::specs::Search::elevation_read))]
fn elevation_read(e: Elevations, u: f32, z9: f32) -> Elevations
    requires { e.tally.readings < 2 ^ 40 }
    ensures { result ≡ elevation_read e u z9 }
{
    let tally = tally_of(e.tally, z9);
    if z9 >= e.wmx {
        return Elevations {
            wmx: z9,
            umax: u,
            tally,
        };
    }
    Elevations { tally, ..e }
}

// Elevations 1 to 90 at azimuth v.
#[tactic(auto, using(pattern::proofs::passes::Entries::up_at), unfolding(crate::specs::Turns::elevations_to, crate::specs::Search::elevation_read, crate::specs::Search::tallied))]
fn elevation_pass(c: Checked<'_>, v: f32, e: Elevations) -> Elevations
    requires { (e.tally.readings < 2 ^ 36) }
    ensures value { result ≡ elevations_of c.entry.model.now c.entry.table.now v e }
    ensures readings_value { result.tally.readings ≡ e.tally.readings + 90 }
{
    let gains = gains_up(c, v);
    let mut out = e;
    for i in 0..90u16 {
        out = elevation_read(out, (i + 1) as f32, gains[i as usize]);
    }
    out
}

#[tactic(auto, unfolding(crate::specs::Search::wrapped))]
fn wrap(v: f32) -> f32
    ensures { result ≡ wrapped v }
{
    if v >= 360.0 { v - 360.0 } else { v }
}

// The last azimuth pass, 5 degrees to each side of v.
#[tactic(auto, unfolding(crate::specs::Search::refined_of))]
fn refine(c: Checked<'_>, e: Elevations, v: f32) -> Search
    requires { (e.tally.readings < 2 ^ 36) }
    ensures { result ≡ refined_of c.entry.model.now c.entry.table.now e v }
{
    let s = azmax(c, e.umax, v - 5.0, v + 5.0, 1.0, e.wmx, v, e.tally);
    let peak = Peak {
        z6: s.rmax,
        umax: e.umax,
        vmax: wrap(s.vmax),
    };
    Search {
        peak,
        tally: s.tally,
    }
}

#[tactic(auto, unfolding(crate::specs::Search::unrefined))]
fn leave_unrefined(e: Elevations, v: f32) -> Search
    ensures { result ≡ unrefined e v }
{
    let peak = Peak {
        z6: e.wmx,
        umax: e.umax,
        vmax: v,
    };
    Search {
        peak,
        tally: e.tally,
    }
}

#[tactic(auto, unfolding(crate::specs::Search::last_searched))]
fn last_searched(iant: u32, slewed: bool) -> bool
    ensures { result ≡ last_searched iant slewed }
{
    slewed | (iant == 4)
}

// `gainorm`: the pattern's maximum, from the start values of umax and vmax. Inner step: its model
// and its table are those that set-up has made.
#[tactic(auto, unfolding(crate::specs::Search::gainorm_of, crate::specs::Search::raised_of))]
pub fn search_peak(c: Checked<'_>, start: Peak) -> Search
    ensures { result ≡ gainorm_of c.entry.model.now c.entry.table.now start }
{
    let a = aim(c, start.vmax);
    let level = Elevations {
        wmx: 0.0,
        umax: start.umax,
        tally: a.tally,
    };
    let e = elevation_pass(c, a.vmax, level);
    if last_searched(c.model.iant, c.model.slewed) {
        refine(c, e, a.vmax)
    } else {
        leave_unrefined(e, a.vmax)
    }
}

// The same of a record that is taken by value.
pub fn gainorm(m: Model, table: &[f32], start: Peak) -> Search
    requires { (counts_ok m ≡ true) × (table_size ≤ length table.now) }
    ensures { result ≡ gainorm_of m table.now start }
{
    search_peak(Checked::of(&m, table), start)
}
