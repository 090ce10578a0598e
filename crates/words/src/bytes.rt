// Bytes over those of a lent buffer.
ghost use Rattle.std.specs.Prelude.{◌+◌, ◌≤◌, length};
ghost use Rattle.words.specs.Writing.{Wrote};

// One by one: with `copy_from_slice` the archive for C needs memmove from outside.
pub fn push_bytes(out: &mut [u8], at: usize, s: &[u8]) -> usize
    requires { at + length s.now ≤ length out.old }
    ensures { Wrote out.old at s.now out.new result }
{
    for (i, b) in s.iter().enumerate() {
        out[at + i] = *b;
    }
    at + s.len()
}
