#![tactic(auto)]

// The program `dbi`: all of standard input in, its text out. `dbi_text::dbi` says what the text is; no
// contract can say what is read or written. Where the input can't be read there is no text, and the
// error on standard error. The stored run is `examples/type-7.station`.
use dbi_text::dbi;
use standard_input::filter::filter;
use std::io;

fn main(rt: HostRuntime) -> io::Result<()> {
    // one byte more than an input has, so that a longer one is noticed
    filter::<_, _, _, 238, 12288>(&mut rt.stdin(), &mut rt.stdout(), dbi)
}
