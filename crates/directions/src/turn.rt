// `v % 360.0` in whole numbers: the operator itself would call a function of the C library that not
// each machine has in the version that a program asks for.
ghost use Rattle.std.specs.Prelude.{◌≡◌, ◌*◌, ◌%◌, ◌^◌, ◌<◌};
ghost use Rattle.directions.specs.Azimuth.{turned};

use numeric::float::{is_finite, is_sign_negative};

// 360 in units of 2^-15.
const CIRCLE: u32 = 11796480;

// What is left of d × 2^n units when whole circles are taken off.
fn left_of(d: u32, n: u32) -> u32
    requires { d < 2 ^ 24 }
    ensures { result ≡ d * 2 ^ n % 11796480 }
{
    let mut left = d % CIRCLE;
    for k in 0..n {
        left = left * 2 % CIRCLE;
    }
    left
}

// `v % 360.0`. A float of 256 or more is a whole number of units of 2^-15, and what is left of it too.
pub fn turned(v: f32) -> f32
    ensures { result ≡ turned v }
{
    if !is_finite(v) {
        return 0.0 / 0.0;
    }
    let bits = f32::to_bits(v) % 0x8000_0000;
    let field = bits / 0x80_0000;
    if field < 135 {
        return v;
    }
    let left = left_of(bits % 0x80_0000 + 0x80_0000, field - 135);
    let size = std::num::nearest_u32_to_f32(left) * 0.000030517578125;
    if is_sign_negative(v) { -size } else { size }
}
