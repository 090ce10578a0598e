// From the twenty parameters to what the pattern is computed from: the source's `PATTRN0`.
ghost use Rattle.std.specs.Prelude.{◌≡◌, ◌≤◌};
ghost use Rattle.curtain_pattern.specs.Pattern as Pattern;
ghost use Rattle.curtain_parameters.specs.Pattrn0 as Pattrn0;

use crate::counts::{bays, clamp};
use crate::excitation::{bay_phase, stack_ratio};
use curtain_pattern::constants::{D2R, PI2, VOFL};
use curtain_pattern::pattern::Curtain;
use floats::rounding::nint;

// Lengths in radians of the operating wave: of the lowest stack's height, the bays' spacing, the
// dipoles, the screen's distance and the stacks' spacing.
#[derive(Clone, Copy)]
pub(crate) struct Lengths {
    pub xh: f32,
    pub xb: f32,
    pub el: f32,
    pub xr: f32,
    pub xs: f32,
}

// A length below 0 is in waves of the design frequency.
#[tactic(auto, unfolding(crate::specs::Pattrn0::to_metres))]
fn to_metres(parm: [f32; 20], v: f32) -> f32
    ensures { result ≡ Pattrn0.to_metres parm v }
{
    let wave_design = VOFL / parm[7];
    if v < 0.0 { -v * wave_design } else { v }
}

#[tactic(auto, unfolding(crate::specs::Pattrn0::beta_of))]
fn beta_of(parm: [f32; 20]) -> f32
    ensures { result ≡ Pattrn0.beta_of parm }
{
    let wave = VOFL / parm[4];
    PI2 / wave
}

#[tactic(auto, unfolding(crate::specs::Pattrn0::lengths_of))]
pub(crate) fn lengths_of(parm: [f32; 20]) -> Lengths
    ensures { result ≡ Pattrn0.lengths_of parm }
{
    let stkspm = to_metres(parm, parm[11]);
    let bayspm = to_metres(parm, parm[10]);
    let diplnm = to_metres(parm, parm[8]);
    let rrspm = to_metres(parm, parm[12]);
    let stkhtm = to_metres(parm, parm[9]);
    let beta = beta_of(parm);
    Lengths {
        xh: stkhtm * beta,
        xb: beta * bayspm,
        el: diplnm * beta,
        xr: rrspm * beta,
        xs: stkspm * beta,
    }
}

// The stacks' ratios and heights.
#[derive(Clone, Copy)]
pub(crate) struct Stacks {
    pub c: [f32; 8],
    pub z: [f32; 8],
}

#[tactic(auto, using(crate::proofs::Few::few), unfolding(crate::specs::Pattrn0::stack_ratios, crate::specs::Pattrn0::stack_heights, floats::specs::Filled::filled_to))]
fn stacks_of(mode: usize, l: Lengths, nostak: usize) -> Stacks
    requires { (1 ≤ mode) × (mode ≤ 15) × (nostak ≤ 8) }
    ensures c_value { result.c ≡ Pattrn0.stack_ratios mode nostak }
    ensures z_value { result.z ≡ Pattrn0.stack_heights l.xs l.xh nostak }
{
    let xs = l.xs;
    let xh = l.xh;
    let mut c = [0.0f32; 8];
    let mut z = [0.0f32; 8];
    for is in 0..nostak {
        c[is] = stack_ratio(mode, is);
        z[is] = xs * is as f32 + xh;
    }
    Stacks { c, z }
}

// The bays' phases, ratios and places.
#[derive(Clone, Copy)]
pub(crate) struct Bays {
    pub ps: [f32; 14],
    pub r: [f32; 14],
    pub y: [f32; 14],
}

#[tactic(auto, using(crate::proofs::Few::few), unfolding(crate::specs::Pattrn0::bay_phases, crate::specs::Pattrn0::bay_ratios, floats::specs::Filled::filled_to, crate::specs::Pattrn0::bay_places))]
fn bays_of(odrat: f32, islew: i32, xb: f32, nbs: usize) -> Bays
    requires { nbs ≤ 14 }
    ensures ps_value { result.ps ≡ Pattrn0.bay_phases odrat islew nbs }
    ensures r_value { result.r ≡ Pattrn0.bay_ratios nbs }
    ensures y_value { result.y ≡ Pattrn0.bay_places xb nbs }
{
    let mut ps = [0.0f32; 14];
    let mut r = [0.0f32; 14];
    let mut y = [0.0f32; 14];
    for ib in 0..nbs {
        ps[ib] = odrat * bay_phase(islew, ib);
        r[ib] = 1.0;
        y[ib] = ib as f32 * xb;
    }
    y[0] = 0.0;
    Bays { ps, r, y }
}

// Inner step: of the integral.
#[tactic(auto, unfolding(crate::specs::Pattrn0::curtain_of, crate::specs::Pattrn0::nostak_of, crate::specs::Pattrn0::nbs_of, crate::specs::Pattrn0::mode_of, crate::specs::Pattrn0::islew_of, crate::specs::Pattrn0::odrat_of))]
pub fn curtain_of(parm: [f32; 20]) -> Curtain
    ensures value { result ≡ Pattrn0.curtain_of parm }
    ensures counted { Pattern.Counted result }
{
    let l = lengths_of(parm);
    let nostak = clamp(parm[6], 0, 8);
    let mode = clamp(parm[13], 1, 15);
    let nbs = bays(parm[5]);
    let odrat = D2R * parm[4] / parm[7];
    let eil = l.el / 2.0;
    let ceil = sine::cos(eil);
    let stacks = stacks_of(mode, l, nostak);
    let c = stacks.c;
    let z = stacks.z;
    let row = bays_of(odrat, nint(parm[14]), l.xb, nbs);
    let ps = row.ps;
    let r = row.r;
    let y = row.y;
    Curtain {
        nostak,
        eil,
        ceil,
        xr: l.xr,
        c,
        r,
        ps,
        y,
        z,
        nbs,
    }
}
