#![tactic(auto)]

// The program `plate`: all of standard input in, its text out. `plate_text::plate` says what the
// text is; no contract can say what is read or written, so `tests/plate` tries that. Where the input
// can't be read there is no text, and the error on standard error. The stored run is document 01's
// Case P.
use plate_text::plate;
use standard_input::filter::filter;
use std::io;

fn main(rt: HostRuntime) -> io::Result<()> {
    // one byte more than an input has, so that a longer one is noticed
    filter::<_, _, _, 238, 8192>(&mut rt.stdin(), &mut rt.stdout(), plate)
}
