// The text of `plate` on stored inputs: an antenna of each type, each refusal that the program can
// give, and other lengths than a station's, document 01's Case Q among them. Takes the files a, b, c ..
// of data/ up to the first that is missing; `oracle/src/examples.rs` says what each is, and their texts
// are the file stdout.

#![tactic(auto)]

use standard_input::read_full;
use std::fs::File;
use std::io;
use std::io::Write;

// Writes the text of one input, and answers whether its file was there.
fn run_case(rt: &HostRuntime, name: &str) -> io::Result<bool> {
    let opened = File::open(rt, name);
    let mut file = match opened {
        Ok(file) => file,
        Err(_) => return Ok(false),
    };
    // more than the longest input has, so that each is read whole
    let mut input = [0u8; 512];
    let n = read_full(&mut file, &mut input)?;
    let mut text = [0u8; 8192];
    let end = plate_text::plate(&input[..n], &mut text);
    rt.stdout().write_all(&text[..end])?;
    Ok(true)
}

fn main(rt: HostRuntime) -> io::Result<()> {
    let names = "abcdefghijklmnopqrstuvwxy";
    for at in 0..25 {
        if !run_case(&rt, &names[at..at + 1])? {
            break;
        }
    }
    Ok(())
}
