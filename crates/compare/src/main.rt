#![tactic(auto)]

// The program `compare`: all of standard input in, two bytes of the base's azimuth and the 237 of each of
// two masts, its text out. `compare_text::output` says what the text is; no contract can say what is read
// or written. Where the input can't be read there is no text, and the error on standard error. The stored
// run is the base at 40 and the examples of types 1 and 7.
use compare_text::output;
use standard_input::filter::filter;
use std::io;

fn main(rt: HostRuntime) -> io::Result<()> {
    // one byte more than an input has, so that a longer one is noticed
    filter::<_, _, _, 477, 2048>(&mut rt.stdin(), &mut rt.stdout(), output)
}
