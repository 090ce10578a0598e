// Reading an input to its end, for the programs that take all of theirs. Which bytes a standard input
// gives no contract can say; that a call ends is proved.
#![tactic(auto)]

pub mod filter;

ghost use Rattle.std.specs.Prelude.{◌≤◌, IfOk, length};

use std::io;
use std::io::Read;

// Reads until the buffer is full or the input ends, and answers how many bytes it put at the buffer's
// start.
pub fn read_full<R: Read>(input: &mut R, buffer: &mut [u8]) -> io::Result<usize>
    ensures { IfOk result (λ n. n ≤ length buffer.new) }
{
    let mut done = 0;
    // A step is as long as what one read gives.
    while done < buffer.len() {
        let got = input.read(&mut buffer[done..])?;
        if got == 0 {
            break;
        }
        done += got;
    }
    Ok(done)
}

// Reads once, and answers how many bytes there were: 0 at the input's end.
fn skip_some<R: Read>(input: &mut R) -> io::Result<usize> {
    let mut rest = [0u8; 65536];
    input.read(&mut rest)
}

// Reads to the input's end, or fails. A proved loop has to end, and nothing says that an input does, so
// the loop counts its turns, to a number that no run reaches.
pub fn skip_rest<R: Read>(input: &mut R) -> io::Result<()> {
    for _ in 0..u64::MAX {
        if skip_some(input)? == 0 {
            return Ok(());
        }
    }
    Err(io::Error::from(io::ErrorKind::Other))
}
