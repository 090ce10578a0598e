// Hundredths of floats, by whole numbers from the float's bits.
ghost use Rattle.std.specs.Prelude.{◌≡◌, true};
ghost use Rattle.hundredths.specs.Hundredths.{in_span, size_of};
ghost use Rattle.hundredths.specs.Raised.{raised_of};

use numeric::bits::bits_of;

// Whether x is at most 1,000 in size: a NaN and an infinity aren't.
#[tactic(auto, using(crate::proofs::Span::span_test))]
pub fn in_span(x: f32) -> bool
    ensures { result ≡ in_span x }
{
    x.abs() <= 1000.0
}

// The hundredths of |x|, which is digits / 2^past, by its bits: 100 times that and a half, rounded
// down. Where past is above 31 it's less than half a hundredth. (Digits have a first 1 that numbers
// below 2^-126 lack, but there past is 150.)
fn size(x: f32) -> u32
    requires { in_span x ≡ true }
    ensures { result ≡ size_of x }
{
    let bits = bits_of(x) % 0x8000_0000;
    let digits = bits % 0x80_0000 + 0x80_0000;
    let past = 150 - (bits >> 23);
    if past > 31 {
        return 0;
    }
    let more = 100 * digits + (1 << (past - 1));
    more >> past
}

// Inner step: the hundredths of a number in span, raised by 100,000.
pub fn raised(x: f32) -> u32
    requires { in_span x ≡ true }
    ensures { result ≡ raised_of x }
{
    if bits_of(x) < 0x8000_0000 {
        return 100000 + size(x);
    }
    100000 - size(x)
}
