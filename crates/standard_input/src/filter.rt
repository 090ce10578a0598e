// A program that answers all of its input with a text.
ghost use Rattle.std.specs.Prelude.{◌<◌, ◌≤◌, ◌^◌, length};

use crate::{read_full, skip_rest};
use std::io;
use std::io::{Read, Write};

// Writes what `text_of` makes of the input's first N bytes, a text of at most M. An input that is longer
// is read to its end too, so a caller that takes N - 1 bytes gives N for one more to be noticed.
pub fn filter<
    R: Read,
    W: Write,
    F: FnOnce(&[u8], &mut [u8]) -> usize,
    const N: usize,
    const M: usize,
>(input: &mut R, output: &mut W, text_of: F) -> io::Result<()>
    requires sizes { (N < 2 ^ 63) × (M < 2 ^ 63) }
    requires callable { F.IsAlwaysCallable text_of }
    requires within { (i o : _) (n : _) (o2 : _) → F.post text_of i o n o2 → n ≤ length o2.now }
{
    let mut bytes = [0u8; N];
    let n = read_full(input, &mut bytes)?;
    skip_rest(input)?;
    let mut text = [0u8; M];
    let end = text_of(&bytes[..n], &mut text);
    output.write_all(&text[..end])
}
