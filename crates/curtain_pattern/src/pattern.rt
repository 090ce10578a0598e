// The curtain's power pattern at one direction: the source's `f2`. Inner steps: one direction takes
// some of them without its tables.
ghost use Rattle.std.specs.Prelude.{◌≡◌, ◌≤◌};
ghost use Rattle.sine.specs.Sine.{sine, cosine};
ghost use Rattle.curtain_pattern.specs.Pattern as Pattern;
ghost use Rattle.curtain_pattern.specs.PatternSteps as Steps;

use numeric::bits::bits_of;

// `/ANTDAT/` and `/FWAVE/`: what the pattern is computed from.
#[derive(Clone, Copy)]
pub struct Curtain {
    pub nostak: usize,
    pub eil: f32,
    pub ceil: f32,
    pub xr: f32,
    pub c: [f32; 8],
    pub r: [f32; 14],
    pub ps: [f32; 14],
    pub y: [f32; 14],
    pub z: [f32; 8],
    pub nbs: usize,
}

// One dipole, cpsi being the cosine of the angle to it.
#[tactic(auto, unfolding(crate::specs::Pattern::ef_of))]
pub fn dipole(eil: f32, ceil: f32, cpsi: f32) -> f32
    ensures { result ≡ Pattern.ef_of eil ceil cpsi }
{
    let b = sine::cos(eil * cpsi) - ceil;
    let spsi2 = 1.0 - cpsi * cpsi;
    if spsi2 <= 1.0e-12 {
        return b / 1.0e-12;
    }
    b / spsi2
}

// The cosine and the sine at a bay's phase. The first bay's is +0, which needs no series.
#[tactic(auto, using(crate::proofs::pattern::ZeroPhase::cosine_is_one), unfolding(sine::specs::Sine::cosine))]
pub fn cos_at(phase: f32) -> f32
    ensures { result ≡ cosine phase }
{
    if bits_of(phase) == 0 {
        return 1.0;
    }
    sine::cos(phase)
}

#[tactic(auto, using(crate::proofs::pattern::ZeroPhase::sine_is_zero), unfolding(sine::specs::Sine::sine))]
pub fn sin_at(phase: f32) -> f32
    ensures { result ≡ sine phase }
{
    if bits_of(phase) == 0 {
        return 0.0;
    }
    sine::sin(phase)
}

// The power of the bays.
#[tactic(auto, unfolding(crate::specs::Pattern::bay_cosines, crate::specs::Pattern::bay_sines, crate::specs::Pattern::arg, crate::specs::Pattern::bay_power))]
fn bay_power(ant: Curtain, cpsi: f32) -> f32
    requires { ant.nbs ≤ 14 }
    ensures { result ≡ Pattern.bay_power ant cpsi }
{
    let mut fyr: f32 = 0.0;
    let mut fyi: f32 = 0.0;
    for i in 0..ant.nbs {
        let arg = ant.y[i] * cpsi + ant.ps[i];
        fyr += ant.r[i] * cos_at(arg);
        fyi += ant.r[i] * sin_at(arg);
    }
    fyr * fyr + fyi * fyi
}

// The sum over the stacks.
#[tactic(auto, unfolding(crate::specs::Pattern::stack_sines))]
fn stack_sines(ant: Curtain, stheta: f32) -> f32
    requires { ant.nostak ≤ 8 }
    ensures { result ≡ Pattern.stack_sines ant stheta ant.nostak }
{
    let mut fzphr: f32 = 0.0;
    for i in 0..ant.nostak {
        fzphr += ant.c[i] * sine::sin(ant.z[i] * stheta);
    }
    fzphr
}

// The power of the stacks. The two sines are multiplied first.
#[tactic(auto, unfolding(crate::specs::Pattern::stack_power))]
pub fn stack_power(fz: f32, stheta: f32, sphi: f32, cphi: f32) -> f32
    ensures { result ≡ Pattern.stack_power fz stheta sphi cphi }
{
    let cof = stheta * sphi;
    let fzthr = fz * cof;
    let fzphr = fz * cphi;
    fzthr * fzthr + fzphr * fzphr
}

// What the pattern takes from the elevation alone: its cosine and sine, and the sum over the stacks.
// The integral has it once for each sweep of the azimuth.
#[derive(Clone, Copy)]
pub struct Elevation {
    pub ctheta: f32,
    pub stheta: f32,
    pub fz: f32,
}

#[tactic(auto, unfolding(crate::specs::PatternSteps::elevation_of))]
pub(crate) fn elevation_at(ant: Curtain, theta: f32) -> Elevation
    requires { ant.nostak ≤ 8 }
    ensures { result ≡ Steps.elevation_of ant theta }
{
    let ctheta = sine::cos(theta);
    let stheta = sine::sin(theta);
    let fz = stack_sines(ant, stheta);
    Elevation { ctheta, stheta, fz }
}

// The pattern at an elevation and an azimuth in radians.
#[tactic(auto, unfolding(crate::specs::PatternSteps::f2_at))]
pub(crate) fn f2_at(ant: Curtain, e: Elevation, phi: f32) -> f32
    requires { ant.nbs ≤ 14 }
    ensures { result ≡ Steps.f2_at ant e phi }
{
    let cphi = sine::cos(phi);
    let sphi = sine::sin(phi);
    let cpsi = e.ctheta * sphi;
    let ef = dipole(ant.eil, ant.ceil, cpsi);
    let fx = sine::sin(ant.xr * e.ctheta * cphi);
    ef * ef * fx * fx * bay_power(ant, cpsi) * stack_power(e.fz, e.stheta, sphi, cphi)
}

// The curtain's unnormalised power pattern at one direction, in radians.
#[tactic(auto, using(crate::proofs::InSteps::f2_in_steps))]
pub(crate) fn f2(ant: Curtain, theta: f32, phi: f32) -> f32
    requires { Pattern.Counted ant }
    ensures { result ≡ Pattern.f2 ant theta phi }
{
    f2_at(ant, elevation_at(ant, theta), phi)
}
