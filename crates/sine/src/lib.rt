#![tactic(auto)]

// Document 01's sine and cosine on f32: the angle is reduced to a quarter of a turn, and its series is
// summed, in whole numbers; one rounding makes the float, so that its bits are fixed. Each takes every
// float, a NaN too, and is an equation with a definition of specs/. Proved of the definitions
// (proofs/Laws.antt): |a| <= 65536, else a NaN (`sine_domain`, `cosine_domain`); S and C within 8 units
// of the exact series (`sine_error`, `cosine_error`); odd and even (`sine-odd`, `cosine_even`), from -1
// to 1 (`sine_bounds`, `cosine_bounds`).
ghost use Rattle.std.specs.Prelude.{◌≡◌, ◌+◌, ◌*◌, ◌≤◌, ◌<◌, ◌^◌, cond, T, pos};
ghost use Rattle.std.specs.Float.Ieee.{neg};
ghost use Rattle.numeric.specs.Rounding as Rounding;
ghost use Rattle.sine.specs.Sine as Sine;
ghost use Rattle.sine.specs.Inner.{quarter_turn, Summable};

use numeric::float::{abs, is_sign_negative, signed};
use numeric::rounding::{from_units, truncated};

// 2^30 units are 1.
const ONE: u64 = 1073741824;
// A whole turn, in 2^-40.
const TURN: u64 = 6908435304715;
// The terms of S, whose first is the angle, and of C, whose first is 1, after the first.
const SINE_TERMS: u64 = 7;

const COSINE_TERMS: u64 = 8;

// An angle: the quarter of the turn, 0 to 3, and the units past its start.
#[derive(Clone, Copy)]
struct Angle {
    quarter: u64,
    past: u64,
}

// The terms of a series that are added, and those that are taken away.
#[derive(Clone, Copy)]
struct Series {
    added: u64,
    taken: u64,
}

// The quadrant in which the angle r lies, 0 to 3: 4r is set against one, two and three turns.
// A turn is odd, so 4r is none of them: < and <= are the same here.
fn quadrant(r: u64) -> u64
    requires { r < Sine.turn }
    ensures { (result * Sine.turn ≤ 4 * r) × (4 * r < (result + 1) * Sine.turn) }
{
    if 4 * r < 2 * TURN {
        if 4 * r < TURN { 0 } else { 1 }
    } else {
        if 4 * r < 3 * TURN { 2 } else { 3 }
    }
}

// The angle of |a| radians, an n of 2^-40, of which r is past the whole turns.
fn reduced(a: f32) -> Angle
    requires { T (Sine.in_domain a) }
    ensures { (result.quarter ≡ Sine.quarter (Rounding.truncated 40 a)) × (result.past ≡ Sine.past (Rounding.truncated 40 a)) }
{
    let r = truncated(a, 40) % TURN;
    let q = quadrant(r);
    Angle {
        quarter: q,
        past: (4 * r - q * TURN) / 4096,
    }
}

// The term after p: the divisor is j (j + 1).
#[tactic(auto, using(crate::proofs::Terms::first_product, crate::proofs::Terms::second_product), unfolding(crate::specs::Sine::next_term))]
fn next_term(t: u64, j: u64, p: u64) -> u64
    requires { (t ≤ quarter_turn) × (p ≤ 2 ^ 31) × (1 ≤ j) × (j ≤ 15) }
    ensures { result ≡ Sine.next_term t j p }
{
    p * t / ONE * t / ONE / (j * (j + 1))
}

// The sums of the term `first` and the n terms after it, two at a time.
fn sums(t: u64, start: u64, n: u64, first: u64) -> Series
    requires { Summable t start n first }
    ensures { (result.added ≡ (Sine.sums t start n first).0) × (result.taken ≡ (Sine.sums t start n first).1) }
{
    let mut added: u64 = 0;
    let mut taken: u64 = 0;
    let mut p = first;
    let mut j = start;
    let mut left = n;
    // Two terms a turn, so no range fits.
    while left > 1 {
        let q = next_term(t, j, p);
        added += p;
        taken += q;
        p = next_term(t, j + 2, q);
        j += 4;
        left -= 2;
    }
    added += p;
    if left == 1 {
        taken += next_term(t, j, p);
    }
    Series { added, taken }
}

// What is left of a sum, cut to 0..2^30.
#[tactic(auto, unfolding(crate::specs::Sine::cut))]
fn cut(s: Series) -> u64
    ensures { result ≡ Sine.cut (s.added, s.taken) }
{
    if s.added <= s.taken {
        return 0;
    }
    let left = s.added - s.taken;
    if left < ONE { left } else { ONE }
}

// The same, cut and rounded to a float.
fn summed(t: u64, start: u64, n: u64, first: u64) -> f32
    requires { Summable t start n first }
    ensures { result ≡ Rounding.F (pos (Sine.cut (Sine.sums t start n first))) }
{
    from_units(cut(sums(t, start, n, first)))
}

// The sine of an angle, or its negation: S in the even quarters and C in the odd ones. Signs are
// set after the rounding.
fn sine_at(a: Angle, negative: bool) -> f32
    requires { (a.quarter ≤ 3) × (a.past ≤ quarter_turn) }
    ensures { result ≡ cond negative (neg (Sine.sine_at a.quarter a.past)) (Sine.sine_at a.quarter a.past) }
{
    let t = a.past;
    let q = a.quarter;
    let size = if q % 2 == 0 {
        summed(t, 2, SINE_TERMS, t)
    } else {
        summed(t, 1, COSINE_TERMS, ONE)
    };
    signed(size, (q >= 2) != negative)
}

// The cosine of an angle: C in the even quarters and S in the odd ones.
fn cosine_at(a: Angle) -> f32
    requires { (a.quarter ≤ 3) × (a.past ≤ quarter_turn) }
    ensures { result ≡ Sine.cosine_at a.quarter a.past }
{
    let t = a.past;
    let q = a.quarter;
    let size = if q % 2 == 0 {
        summed(t, 1, COSINE_TERMS, ONE)
    } else {
        summed(t, 2, SINE_TERMS, t)
    };
    signed(size, (q == 1) | (q == 2))
}

// Whether a has a sine: |a| is at most 65,536.
fn in_domain(a: f32) -> bool
    ensures { result ≡ Sine.in_domain a }
{
    abs(a) <= 65536.0
}

// The sine of a radians; a NaN where |a| is above 65,536 or a is no number.
pub fn sin(a: f32) -> f32
    ensures { result ≡ Sine.sine a }
{
    if in_domain(a) {
        sine_at(reduced(a), is_sign_negative(a))
    } else {
        f32::NAN
    }
}

// The cosine of a radians; a NaN where |a| is above 65,536 or a is no number.
pub fn cos(a: f32) -> f32
    ensures { result ≡ Sine.cosine a }
{
    if in_domain(a) {
        cosine_at(reduced(a))
    } else {
        f32::NAN
    }
}
