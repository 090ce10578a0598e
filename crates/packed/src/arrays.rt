// Floats of a slice as an array of their own, and of a slice's words. Inner steps: they ask that the slice has them.
ghost use Rattle.std.specs.Prelude.{◌≡◌, ◌+◌, ◌≤◌, length};
ghost use Rattle.packed.specs.Lists.{floats, part};

use numeric::bits::float_of;
use std::array;

// As many floats as the array has.
pub fn floats_at<const N: usize>(s: &[f32], at: usize) -> [f32; N]
    requires { at + N ≤ length s.now }
    ensures { result ≡ part s.now at N }
{
    <[f32; N]>::try_from(&s[at..at + N]).unwrap()
}

// As many words as the array has, by their bits.
pub fn floats_in<const N: usize>(words: &[u32], at: usize) -> [f32; N]
    requires { at + N ≤ length words.now }
    ensures { result ≡ part (floats words.now) at N }
{
    array::from_fn(|i| float_of(words[at + i]))
}
