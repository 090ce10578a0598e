// Floats as bit patterns. A NaN's own bits are lost: any NaN pattern is a NaN, and a NaN is 7FC00000.
ghost use Rattle.std.specs.Prelude.{◌≡◌, from_bits, to_bits};
ghost use Rattle.std.specs.Float.{binary32};

// The float of a pattern.
pub fn float_of(bits: u32) -> f32
    ensures { result ≡ from_bits binary32 bits }
{
    std::num::f32_from_bits_with_nan(bits)
}

// The pattern of a float.
pub fn bits_of(x: f32) -> u32
    ensures { result ≡ to_bits binary32 x }
{
    std::num::f32_to_bits_with_nan(x)
}
