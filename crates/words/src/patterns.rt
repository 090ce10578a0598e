// Floats of a slice: as words, by their bit patterns, and copied.
ghost use Rattle.std.specs.Prelude.{◌≡◌, ◌+◌, ◌≤◌, length};
ghost use Rattle.words.specs.Laid.{laid};
ghost use Rattle.words.specs.Patterns.{bits, floats, part};

use numeric::bits::{bits_of, float_of};

// Writes the floats' bits from word `at` on.
pub fn put_bits(out: &mut [u32], at: usize, xs: &[f32])
    requires { at + length xs.now ≤ length out.old }
    ensures { out.new ≡ laid out.old at (bits xs.now) }
{
    for (i, x) in xs.iter().enumerate() {
        out[at + i] = bits_of(*x);
    }
}

// Reads floats over all of out, from word `at` on.
pub fn read_bits(words: &[u32], at: usize, out: &mut [f32])
    requires { at + length out.old ≤ length words.now }
    ensures { out.new ≡ part (floats words.now) at (length out.old) }
{
    for i in 0..out.len() {
        out[i] = float_of(words[at + i]);
    }
}

// Copies floats of s from `at` on over all of out.
pub fn copy_part(s: &[f32], at: usize, out: &mut [f32])
    requires { at + length out.old ≤ length s.now }
    ensures { out.new ≡ part s.now at (length out.old) }
{
    let n = out.len();
    out.copy_from_slice(&s[at..at + n]);
}
