#![tactic(auto)]

// Document 01's powf on f32, by the binary logarithm and the exponential series, for every two floats: an
// equation with a definition of specs/. A positive normal base and 0 < y <= 1, else a NaN (`powf_domain`,
// proofs/Laws.antt).
ghost use Rattle.std.specs.Prelude.{◌≡◌, ◌≤◌, ◌^◌};
ghost use Rattle.power.specs.Power as Spec;
ghost use Rattle.power.specs.Inner.{InRange};

use logarithm::{binary_logarithm, scaled_down};
use numeric::rounding::{from_units, power_of_two, truncated};

// The least positive normal number, 2^-126.
const MIN_POSITIVE: f32 = 1.1754944e-38;

// The exponential series at w, up to its twelfth term.
fn exponential_sum(w: u64) -> u64
    requires { w ≤ 2 ^ 30 }
    ensures { result ≡ Spec.sum_to w 12 }
{
    let mut term: u64 = 0x4000_0000;
    let mut sum: u64 = 0x4000_0000;
    for k in 1..=12 {
        term = ((term * w) >> 30) / k;
        sum += term;
    }
    sum
}

// 2^(e / 2^30), rounded once.
fn antilogarithm(e: i64) -> f32
    requires { InRange e }
    ensures { result ≡ Spec.antilogarithm e }
{
    let whole = e >> 30;
    let rest = (e - whole * 0x4000_0000) as u64;
    let sum = exponential_sum((rest * 744_261_118) >> 30);
    from_units(sum) * power_of_two((whole + 127) as u32)
}

// x to the power y, for a positive normal x and 0 < y <= 1; else a NaN.
pub fn powf(x: f32, y: f32) -> f32
    ensures { result ≡ Spec.powf_of x y }
{
    if is_normal(x) && is_exponent(y) {
        antilogarithm(scaled_down(binary_logarithm(x), truncated(y, 24)))
    } else {
        0.0 / 0.0
    }
}

// Whether x is finite, above zero and not subnormal.
fn is_normal(x: f32) -> bool
    ensures { result ≡ Spec.normal x }
{
    x >= MIN_POSITIVE && x < 1.0 / 0.0
}

// Whether 0 < y <= 1.
fn is_exponent(y: f32) -> bool
    ensures { result ≡ Spec.is_exponent y }
{
    y > 0.0 && y <= 1.0
}
