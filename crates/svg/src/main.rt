#![tactic(auto)]

// The program `svg`: all of standard input in, its text out. `svg_text::output` says what the text is;
// no contract can say what is read or written. Where the input can't be read there is no text, and the
// error on standard error. The stored run is examples/type-1.station with what is folded over shown
// apart.
use standard_input::filter::filter;
use std::io;
use svg_text::output;

fn main(rt: HostRuntime) -> io::Result<()> {
    // one byte more than an input has, so that a longer one is noticed
    filter::<_, _, _, 476, 131072>(&mut rt.stdin(), &mut rt.stdout(), output)
}
