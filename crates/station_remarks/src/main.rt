#![tactic(auto)]

// The program `station_remarks`: all of standard input in, the remarks on its plate out. `remarks::remarks`
// says what they are; no contract can say what is read or written, so `tests/card` tries that. Where the
// input can't be read there is no text, and the error on standard error. The stored run is the rhombic of
// `examples/`.
use remarks::remarks;
use standard_input::filter::filter;
use std::io;

fn main(rt: HostRuntime) -> io::Result<()> {
    // one byte more than an input has, so that a longer one is noticed
    filter::<_, _, _, 238, 256>(&mut rt.stdin(), &mut rt.stdout(), remarks)
}
