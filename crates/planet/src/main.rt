#![tactic(auto)]

// The program `planet`: all of standard input in, its text out. `planet_text::output::planet_output`
// says what the text is; no contract can say what is read or written, so `tests/planet` tries that.
// Where the input can't be read there is no text, and the error on standard error.
use planet_text::output::planet_output;
use standard_input::filter::filter;
use std::io;

fn main(rt: HostRuntime) -> io::Result<()> {
    // one byte more than an input has, so that a longer one is noticed
    filter::<_, _, _, 238, 8960>(&mut rt.stdin(), &mut rt.stdout(), planet_output)
}
