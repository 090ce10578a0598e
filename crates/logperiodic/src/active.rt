// The active elements of a log-periodic antenna, their currents and phases: the second half of
// `logparm`.
ghost use Rattle.std.specs.Prelude.{◌≡◌, ◌<◌, ◌≤◌};
ghost use Rattle.logperiodic.specs.Active.{shape, band, appended, active_to, Listed, excited, louder, loudest, normalised};

use crate::current::{Band, Curves, current_of, phase_of};
use floats::range::is_between;

// The numbers of the nat active elements, at 1 to nat.
#[derive(Clone, Copy)]
pub struct Active {
    pub iek: [usize; 36],
    pub nat: usize,
}

// Currents and phases by the elements' lengths.
#[derive(Clone, Copy)]
pub struct Excited {
    pub ria: [f32; 31],
    pub fi: [f32; 36],
}

// Phases and currents, taken by the largest current.
#[derive(Clone, Copy)]
pub struct Feed {
    pub fi: [f32; 36],
    pub rim: [f32; 36],
}

// The largest current, and the phase there.
#[derive(Clone, Copy)]
pub struct Loudest {
    pub riamax: f32,
    pub fimin: f32,
}

// `shf`: the resonant length by the feeder's impedance, in quarter wavelengths.
#[tactic(auto, unfolding(crate::specs::Active::shape))]
fn shape_of(z0: f32) -> f32
    ensures { result ≡ shape z0 }
{
    let z = z0 / 1000.0;
    1.098790227 - 1.055146365 * z + 3.208544524 * (z * z) - 5.766460847 * ((z * z) * z)
        + 4.054233788 * ((z * z) * (z * z))
}

// The lengths between which an element is active.
#[tactic(auto, unfolding(crate::specs::Active::band))]
pub(crate) fn band_of(z0: f32, rlambda: f32, sigma: f32, tau: f32) -> Band
    ensures { result ≡ band z0 rlambda sigma tau }
{
    let rlc = rlambda * shape_of(z0) / 4.0;
    let bar = 1.1 + 30.7 * sigma * (1.0 - tau);
    let rllow = rlc / bar;
    Band {
        rllow,
        rl0: rllow + 0.7166 * (rlc - rllow),
        rlc,
        rlup: 1.1 * rlc,
    }
}

// The list with element i at its end, where the length l of i lies in the band.
#[tactic(auto, unfolding(crate::specs::Active::appended))]
fn append_active(a: Active, s: Band, i: usize, l: f32) -> Active
    requires { a.nat < 35 }
    ensures { result ≡ appended a s i l }
{
    if is_between(l, s.rllow, s.rlup) {
        let nat = a.nat + 1;
        let mut iek = a.iek;
        iek[nat] = i;
        Active { iek, nat }
    } else {
        a
    }
}

// The active ones of elements 1 to nel.
#[tactic(auto, using(crate::proofs::active::Listing::active_few, crate::proofs::active::Listing::active_listed), unfolding(crate::specs::Active::active_to))]
pub(crate) fn active_of(s: Band, rl: [f32; 36], nel: usize) -> Active
    requires { nel ≤ 30 }
    ensures value { result ≡ active_to s rl nel }
    ensures listed { Listed result.iek result.nat }
{
    let mut a = Active {
        iek: [0; 36],
        nat: 0,
    };
    for k in 0..nel {
        a = append_active(a, s, k + 1, rl[k + 1]);
    }
    a
}

// Currents and phases of the active elements by their lengths, 0 for all others.
#[tactic(auto, using(crate::proofs::active::Listing::below), unfolding(crate::specs::Active::over_active, crate::specs::Active::excited, crate::specs::Active::currents, crate::specs::Active::phases))]
pub(crate) fn excited_of(a: Active, s: Band, p: Curves, rl: [f32; 36]) -> Excited
    requires { Listed a.iek a.nat }
    ensures { result ≡ excited a s p rl }
{
    let mut ria = [0.0f32; 31];
    let mut fi = [0.0f32; 36];
    for k in 0..a.nat {
        let i = a.iek[k + 1];
        ria[i] = current_of(s, p, rl[i]);
        fi[i] = phase_of(s, rl[i]);
    }
    Excited { ria, fi }
}

// The last of equal currents.
#[tactic(auto, unfolding(crate::specs::Active::louder))]
fn louder_of(m: Loudest, ria: f32, fi: f32) -> Loudest
    ensures { result ≡ louder m ria fi }
{
    if m.riamax <= ria {
        Loudest {
            riamax: ria,
            fimin: fi,
        }
    } else {
        m
    }
}

#[tactic(auto, using(crate::proofs::active::Listing::below), unfolding(crate::specs::Active::loudest_to, crate::specs::Active::loudest))]
pub(crate) fn loudest_of(a: Active, ria: [f32; 31], fi: [f32; 36]) -> Loudest
    requires { Listed a.iek a.nat }
    ensures { result ≡ loudest a ria fi }
{
    let mut m = Loudest {
        riamax: 0.0,
        fimin: 0.0,
    };
    for k in 0..a.nat {
        let i = a.iek[k + 1];
        m = louder_of(m, ria[i], fi[i]);
    }
    m
}

// The currents by the largest, over the sine of the element's electrical length; the phases from
// the largest current's.
#[tactic(auto, using(crate::proofs::active::Listing::below), unfolding(crate::specs::Active::over_active, crate::specs::Active::normalised, crate::specs::Active::relative_phases, crate::specs::Active::strengths))]
pub(crate) fn normalised_of(
    a: Active,
    ria: [f32; 31],
    fi: [f32; 36],
    top: Loudest,
    beta: f32,
    rl: [f32; 36],
) -> Feed
    requires { Listed a.iek a.nat }
    ensures { result ≡ normalised a ria fi top beta rl }
{
    let mut out = fi;
    let mut rim = [0.0f32; 36];
    for k in 0..a.nat {
        let i = a.iek[k + 1];
        let rinm = ria[i] / top.riamax;
        out[i] = fi[i] - top.fimin;
        rim[i] = rinm / sine::sin(beta * rl[i]);
    }
    Feed { fi: out, rim }
}
