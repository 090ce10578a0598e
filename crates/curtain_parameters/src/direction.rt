// The pattern at one direction, straight from the parameters. The integral reads its tables 16,471
// times; one direction reads them once, so none is filled and none is handed on.
ghost use Rattle.std.specs.Prelude.{◌≡◌, ◌≤◌, ◌<◌};
ghost use Rattle.curtain_pattern.specs.Pattern as Pattern;
ghost use Rattle.curtain_pattern.specs.PatternSteps as PatternSteps;
ghost use Rattle.curtain_parameters.specs.DirectionSteps as Steps;
ghost use Rattle.curtain_parameters.specs.Pattrn0 as Pattrn0;

use crate::counts::{bays, clamp};
use crate::excitation::{bay_phase, stack_ratio};
use crate::pattrn0::{Lengths, lengths_of};
use curtain_pattern::constants::D2R;
use curtain_pattern::pattern::{Elevation, cos_at, dipole, sin_at, stack_power};
use floats::rounding::nint;

#[tactic(auto, using(crate::proofs::Few::few), unfolding(crate::specs::DirectionSteps::place_of))]
fn bay_place(xb: f32, i: usize) -> f32
    requires { i < 14 }
    ensures { result ≡ Steps.place_of xb i }
{
    if i == 0 { 0.0 } else { i as f32 * xb }
}

// The power of the bays; each has the ratio 1.
#[tactic(auto, unfolding(crate::specs::DirectionSteps::bay_cosines_of, crate::specs::DirectionSteps::bay_sines_of, crate::specs::DirectionSteps::arg_of, crate::specs::DirectionSteps::bay_power_of))]
fn bay_power_of(odrat: f32, islew: i32, xb: f32, nbs: usize, cpsi: f32) -> f32
    requires { nbs ≤ 14 }
    ensures { result ≡ Steps.bay_power_of odrat islew xb cpsi nbs }
{
    let mut fyr: f32 = 0.0;
    let mut fyi: f32 = 0.0;
    for i in 0..nbs {
        let arg = bay_place(xb, i) * cpsi + odrat * bay_phase(islew, i);
        fyr += 1.0 * cos_at(arg);
        fyi += 1.0 * sin_at(arg);
    }
    fyr * fyr + fyi * fyi
}

// The sum over the stacks.
#[tactic(auto, using(crate::proofs::Few::few), unfolding(crate::specs::DirectionSteps::stack_sines_of))]
fn stack_sines_of(mode: usize, xs: f32, xh: f32, nostak: usize, stheta: f32) -> f32
    requires { (1 ≤ mode) × (mode ≤ 15) × (nostak ≤ 8) }
    ensures { result ≡ Steps.stack_sines_of mode xs xh stheta nostak }
{
    let mut fz: f32 = 0.0;
    for i in 0..nostak {
        fz += stack_ratio(mode, i) * sine::sin((xs * i as f32 + xh) * stheta);
    }
    fz
}

#[tactic(auto, using(crate::proofs::direction::Tables::stacks_in_steps), unfolding(crate::specs::Pattrn0::nostak_of, crate::specs::Pattrn0::mode_of, curtain_pattern::specs::PatternSteps::elevation_of))]
fn elevation_of(parm: [f32; 20], l: Lengths, theta: f32) -> Elevation
    requires { l ≡ Pattrn0.lengths_of parm }
    ensures { result ≡ PatternSteps.elevation_of (Pattrn0.curtain_of parm) theta }
{
    let nostak = clamp(parm[6], 0, 8);
    let mode = clamp(parm[13], 1, 15);
    let ctheta = sine::cos(theta);
    let stheta = sine::sin(theta);
    let fz = stack_sines_of(mode, l.xs, l.xh, nostak, stheta);
    Elevation { ctheta, stheta, fz }
}

fn bay_power_at(parm: [f32; 20], l: Lengths, cpsi: f32) -> f32
    requires { l ≡ Pattrn0.lengths_of parm }
    ensures { result ≡ Pattern.bay_power (Pattrn0.curtain_of parm) cpsi }
{
    let nbs = bays(parm[5]);
    let odrat = D2R * parm[4] / parm[7];
    let islew = nint(parm[14]);
    bay_power_of(odrat, islew, l.xb, nbs, cpsi)
}

// The curtain's unnormalised power pattern at one direction, in radians. Inner step: of the level.
#[tactic(auto, using(curtain_pattern::proofs::InSteps::f2_in_steps, crate::proofs::direction::Tables::eil_is, crate::proofs::direction::Tables::ceil_is, crate::proofs::direction::Tables::xr_is), unfolding(curtain_pattern::specs::PatternSteps::f2_at))]
pub fn f2_of(parm: [f32; 20], theta: f32, phi: f32) -> f32
    ensures { result ≡ Pattern.f2 (Pattrn0.curtain_of parm) theta phi }
{
    let l = lengths_of(parm);
    let eil = l.el / 2.0;
    let ceil = sine::cos(eil);
    let e = elevation_of(parm, l, theta);
    let cphi = sine::cos(phi);
    let sphi = sine::sin(phi);
    let cpsi = e.ctheta * sphi;
    let ef = dipole(eil, ceil, cpsi);
    let fx = sine::sin(l.xr * e.ctheta * cphi);
    ef * ef * fx * fx * bay_power_at(parm, l, cpsi) * stack_power(e.fz, e.stheta, sphi, cphi)
}
