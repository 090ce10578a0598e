#![tactic(auto)]

// Square roots: of a whole number, cut to a whole number, and of an f32, as IEEE 754's squareRoot. Each is
// an equation with a definition of specs/, for every number and every float; of the definition it is
// proved that it is IEEE 754's squareRoot (`sqrt_is`) and that nothing else is (`sqrt_only`), in
// proofs/Laws.antt.
ghost use Rattle.std.specs.Prelude.{◌≡◌, suc, ◌*◌, ◌^◌, ◌≤◌, ◌<◌, T, Float};
ghost use Rattle.std.specs.Float.{binary32};
ghost use Rattle.std.specs.Float.Ieee.{fits, to_bits};
ghost use Rattle.std.specs.Float.Ieee.Positive.{positive};
ghost use Rattle.root.specs.Root.{root, sqrt_of, square};

use numeric::rounding::parts_of;

// The largest number whose square is at most n. The first guess is the Newton step from a power
// of two above the root, where the quotient is a shift.
pub fn isqrt(n: u64) -> u64
    ensures { result ≡ root n }
{
    let half = (65 - u64::leading_zeros(n)) / 2;
    isqrt_from(n, ((1 << half) + (n >> half)) / 2)
}

// The same by Newton steps down from a first guess, the root or a number above it. The guess has
// settled once its square is at most n: no step would lower it.
#[tactic(auto, using(crate::proofs::Newton::newton_above, crate::proofs::Newton::above_zero, crate::proofs::Newton::quotient_lt, crate::proofs::Whole::root_unique))]
fn isqrt_from(n: u64, first: u64) -> u64
    requires { (first < 2 ^ 32) × (n < suc first * suc first) }
    ensures { result ≡ root n }
{
    let mut x = first;
    // A step is the next guess: there is nothing to count.
    loop {
        if x * x <= n {
            break x;
        }
        x = (x + n / x) / 2;
    }
}

// The square root of x, rounded to nearest. That of -0 is -0, and below 0 there is none.
pub fn sqrt(x: f32) -> f32
    ensures { result ≡ sqrt_of x }
{
    if x > 0.0 {
        if x < 1.0 / 0.0 {
            return sqrt_positive(x);
        }
        return x;
    }
    if x == 0.0 {
        return x;
    }
    0.0 / 0.0
}

// The same for a finite x above 0. In half steps of 2^-150 the root's square is the steps of x,
// times 2^151: the significand times 2^(exponent + 128).
fn sqrt_positive(x: f32) -> f32
    requires { T (positive x) }
    ensures { result ≡ sqrt_of x }
{
    let parts = parts_of(x);
    f32::from_bits(root_bits(parts.significand, parts.exponent + 128))
}

// The bits of the root of x, whose square in half steps is m * 2^e. Shifted to 49 or 50 digits, m
// leaves an even power of two, 2^(2t), and has a root of 25 digits, one more than is kept.
fn root_bits(m: u32, e: u32) -> u32
    requires { (2 ^ 23 ≤ m) × (m < 2 ^ 24) × (128 ≤ e) × (e < 2 ^ 10) }
    ensures { (x : Float) → T (fits binary32 x) → T (positive x) → square x ≡ m * 2 ^ e → result ≡ to_bits binary32 (sqrt_of x) }
{
    let t = (e - 25) / 2;
    let n = (m as u64) << (e - 2 * t);
    let guess = near_root(m as u64, e % 2 == 0);
    let s = isqrt_from(n, (guess + n / guess) / 2);
    t * 0x80_0000 + ((s + 1) / 2) as u32
}

// Within 1 % of the root of m * 2^25, or of m * 2^26, for an m of 24 digits: a line.
fn near_root(m: u64, doubled: bool) -> u64
    requires { m < 2 ^ 24 }
    ensures { (2 ^ 23 ≤ result) × (result < 2 ^ 26) }
{
    if doubled {
        14_002_464 + ((m * 9_901_276) >> 23)
    } else {
        9_901_276 + ((m * 14_002_464) >> 24)
    }
}
