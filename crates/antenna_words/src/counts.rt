// Counts as words of a lent slice. A word holds the low 32 bits of a count.
ghost use Rattle.std.specs.Prelude.{◌≡◌, map, ◌+◌, ◌≤◌, length};
ghost use Rattle.words.specs.Laid.{laid};
ghost use Rattle.words.specs.Patterns.{part};
ghost use Rattle.antenna_words.specs.Fields.{low};

use std::array;

pub(crate) fn put_counts(out: &mut [u32], at: usize, ns: &[usize])
    requires { at + length ns.now ≤ length out.old }
    ensures { out.new ≡ laid out.old at (map low ns.now) }
{
    for (i, n) in ns.iter().enumerate() {
        out[at + i] = (*n % 0x1_0000_0000) as u32;
    }
}

// As many counts as the array has, from word `at` on.
pub(crate) fn counts_at<const N: usize>(words: &[u32], at: usize) -> [usize; N]
    requires { at + N ≤ length words.now }
    ensures { result ≡ part words.now at N }
{
    array::from_fn(|k| words[at + k] as usize)
}
