#![tactic(auto)]

// Document 01's atan on f32, by two halvings of the angle and seven terms of the series, for every float:
// an equation with a definition of specs/. A NaN for a NaN alone (`atan_domain`); odd (`atan_odd`), both
// in proofs/Laws.antt.
ghost use Rattle.std.specs.Prelude.{◌≡◌, ◌+◌, ◌*◌, ◌≤◌, ◌<◌, ◌^◌, pos, T};
ghost use Rattle.arctangent.specs.Arctangent as Spec;
ghost use Rattle.numeric.specs.Inner.{unsigned};

use numeric::float::{is_sign_negative, with_sign};
use numeric::rounding::{from_units, truncated};
use root::isqrt;

// The tangent of half the angle whose tangent is t.
fn halved(t: u64) -> u64
    requires { t ≤ 2 ^ 30 }
    ensures { result ≡ Spec.halved t }
{
    let hypotenuse = isqrt(0x1000_0000_0000_0000 + t * t);
    t * 0x4000_0000 / (0x4000_0000 + hypotenuse)
}

// The series with `left` terms left, from `power` and its divisor on, signs alternating.
fn series_left(t: u64, left: u64, divisor: u64, power: u64) -> u64
    requires { (t ≤ 2 ^ 30) × (power ≤ 2 ^ 30) × (0 < divisor) × (divisor + 2 * left < 2 ^ 32) }
    ensures { Spec.series t left divisor power ≡ pos result }
{
    if left == 0 {
        return 0;
    }
    let next = (((power * t) >> 30) * t) >> 30;
    power / divisor - series_left(t, left - 1, divisor + 2, next)
}

// The angle whose tangent is t.
fn angle(t: u64) -> u64
    requires { t ≤ 2 ^ 30 }
    ensures { Spec.angle t ≡ pos result }
{
    let quarter = halved(halved(t));
    4 * series_left(quarter, 7, 1, quarter)
}

// atan of an a that is not negative.
fn atan_of_size(a: f32) -> f32
    requires { T (unsigned a) }
    ensures { (result ≡ Spec.atan_of_size a) × T (unsigned result) }
{
    if a > 1.0 {
        from_units(1_686_629_713 - angle(truncated(1.0 / a, 30)))
    } else {
        from_units(angle(truncated(a, 30)))
    }
}

// atan, with the sign of a; a NaN for a NaN.
pub fn atan(a: f32) -> f32
    ensures { result ≡ Spec.atan_of a }
{
    if a != a {
        return 0.0 / 0.0;
    }
    with_sign(atan_of_size(a.abs()), is_sign_negative(a))
}
