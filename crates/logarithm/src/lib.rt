#![tactic(auto)]

// Document 01's logarithms on f32: the binary one by repeated squaring, and log10 and ln from it, rounded
// once. log10 and ln take every float, a NaN too, and are equations with definitions of specs/. Proved of
// the definitions (proofs/Laws.antt): positive finite numbers, subnormal ones too, else a NaN
// (`ln_domain`, `log10_domain`); the binary logarithm is less than 4 units low (`logarithm_bounds`) and
// never falls (`logarithm_order`).
ghost use Rattle.std.specs.Prelude.{◌≡◌, ◌≤◌, ◌<◌, ◌^◌, T};
ghost use Rattle.std.specs.Int.Signed.{mag};
ghost use Rattle.std.specs.Float.Ieee.Positive.{positive};
ghost use Rattle.logarithm.specs.Logarithm.{
  digits,
  binary_logarithm,
  scaled,
  logarithm_times,
  log10_of,
  ln_of,
};

use numeric::rounding::{from_signed_units, parts_of};

// The binary digits of the logarithm of x / 2^30, with `left` of them left.
fn digits_left(left: u64, x: u64) -> u64
    requires { (left ≤ 30) × (2 ^ 30 ≤ x) × (x < 2 ^ 31) }
    ensures { result ≡ digits left x }
{
    if left == 0 {
        return 0;
    }
    let square = (x * x) >> 30;
    let digit = square >> 31;
    (digit << (left - 1)) + digits_left(left - 1, square >> digit)
}

// Inner step of log10, ln and powf: the binary logarithm of a positive finite number, in units of 2^-30, rounded down at each digit.
pub fn binary_logarithm(x: f32) -> i64
    requires { T (positive x) }
    ensures { result ≡ binary_logarithm x }
{
    let parts = parts_of(x);
    // the significand, moved from 23 to 30 binary places
    let significand = (parts.significand as u64) * 128;
    let exponent = parts.exponent as i64 - 149;
    exponent * 0x4000_0000 + digits_left(30, significand) as i64
}

// Whether x is finite and above zero.
fn is_positive(x: f32) -> bool
    ensures { result ≡ positive x }
{
    x > 0.0 && x < 1.0 / 0.0
}

// Inner step of the same: l times k / 2^24, rounded down also below zero.
pub fn scaled_down(l: i64, k: u64) -> i64
    requires { (mag l < 2 ^ 39) × (k ≤ 2 ^ 24) }
    ensures { result ≡ scaled k l }
{
    (l * (k as i64)) >> 24
}

// The binary logarithm times k / 2^24; NaN where x is not positive and finite.
fn logarithm_times(k: u64, x: f32) -> f32
    requires { k ≤ 2 ^ 24 }
    ensures { result ≡ logarithm_times k x }
{
    if is_positive(x) {
        from_signed_units(scaled_down(binary_logarithm(x), k))
    } else {
        0.0 / 0.0
    }
}

// The logarithm to the base 10: 5,050,445 / 2^24 is log10 2.
pub fn log10(x: f32) -> f32
    ensures { result ≡ log10_of x }
{
    logarithm_times(5_050_445, x)
}

// The natural logarithm: 11,629,080 / 2^24 is ln 2.
pub fn ln(x: f32) -> f32
    ensures { result ≡ ln_of x }
{
    logarithm_times(11_629_080, x)
}
