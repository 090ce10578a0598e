// `parmprec` at one elevation: the ground-reflection factors of all types but the log-periodic
// ones, 5 and 6.
ghost use Rattle.std.specs.Prelude.{◌≡◌};
ghost use Rattle.elevation.specs.Factors.{single, stack_to, stack_of, mixed, bare, no_factors, factors_at};

use crate::reflection::{Reflection, refcof};
use model::record::{Constants, Factors};

// The summed cosines, w1, and sines, w2, of a stack of dipoles over ground.
#[derive(Clone, Copy)]
pub struct Stack {
    pub w1: f32,
    pub w2: f32,
}

// One dipole at the height h1.
#[tactic(auto, unfolding(crate::specs::Factors::single))]
fn one_dipole(h1: f32, pfra: f32) -> Stack
    ensures { result ≡ single h1 pfra }
{
    let pfrh = pfra * h1;
    Stack {
        w1: sine::cos(pfrh),
        w2: sine::sin(pfrh),
    }
}

// n dipoles, the lowest at the height h1, each half a wave above the one below.
#[tactic(auto, unfolding(crate::specs::Factors::stack_to))]
fn stacked(h1: f32, pfra: f32, n: u32) -> Stack
    ensures { result ≡ stack_to h1 pfra n }
{
    let mut w1: f32 = 0.0;
    let mut w2: f32 = 0.0;
    for il in 0..n {
        let rik = std::num::nearest_u32_to_f32(il) / 2.0;
        let h11 = (h1 + rik) * pfra;
        w2 = w2 + sine::sin(h11);
        w1 = w1 + sine::cos(h11);
    }
    Stack { w1, w2 }
}

// A type's dipoles at the elevation whose sine is a0.
#[tactic(auto, unfolding(crate::specs::Factors::stack_of))]
fn stack_of(iant: u32, k: Constants, a0: f32) -> Stack
    ensures { result ≡ stack_of iant k a0 }
{
    let pfra = k.pfr * a0 * 2.0;
    if iant >= 4 {
        return one_dipole(k.h1, pfra);
    }
    let count = floats::rounding::nint(k.r3 - 1.0);
    stacked(k.h1, pfra, floats::rounding::turns(count))
}

// The dipoles with their reflection.
#[tactic(auto, unfolding(crate::specs::Factors::mixed))]
fn mix(s: Stack, r: Reflection) -> Factors
    ensures { result ≡ mixed s r }
{
    let w31 = 1.0 - r.t1;
    let w32 = 1.0 + r.t1;
    let w33 = 1.0 + r.t3;
    let w34 = 1.0 - r.t3;
    Factors {
        w3: w31 * s.w1 - r.t2 * s.w2,
        w4: w32 * s.w2 - r.t2 * s.w1,
        w5: w33 * s.w1 + r.t4 * s.w2,
        w6: w34 * s.w2 + r.t4 * s.w1,
        w9: w32 * s.w1 + r.t2 * s.w2,
        w10: w31 * s.w2 + r.t2 * s.w1,
    }
}

// The reflection alone, for the rhombic.
#[tactic(auto, unfolding(crate::specs::Factors::bare))]
fn bare_reflection(r: Reflection) -> Factors
    ensures { result ≡ bare r }
{
    Factors {
        w3: r.t1,
        w4: r.t2,
        w5: r.t3,
        w6: r.t4,
        w9: 0.0,
        w10: 0.0,
    }
}

// What the other types leave.
#[tactic(auto, unfolding(crate::specs::Factors::no_factors))]
fn no_factors() -> Factors
    ensures { result ≡ no_factors }
{
    Factors {
        w3: 0.0,
        w4: 0.0,
        w5: 0.0,
        w6: 0.0,
        w9: 0.0,
        w10: 0.0,
    }
}

// At the elevation whose sine and cosine are a0 and b0. The source counts 0 among the arrays.
#[tactic(auto, unfolding(crate::specs::Factors::factors_at, crate::specs::Factors::over_ground, model::specs::Types::array_type, model::specs::Types::crossed_type))]
pub fn factors_at(iant: u32, k: Constants, a0: f32, b0: f32) -> Factors
    ensures { result ≡ factors_at iant k a0 b0 }
{
    match iant {
        0..=4 | 8 | 9 => mix(stack_of(iant, k, a0), refcof(a0, b0, k.d1, k.e1)),
        7 => bare_reflection(refcof(a0, b0, k.d1, k.e1)),
        _ => no_factors(),
    }
}
