#![tactic(auto)]

// The program `card_station`: a card's text on standard input, the 237 bytes of its station on standard
// output (`card::station`), or nothing. The sentence of the card's mistake, or of a remark on it, goes to
// standard error (`card_text::sentence`). No contract can say what is read or written, so `tests/card`
// tries that.
use standard_input::{read_full, skip_rest};
use std::io;
use std::io::Write;

// The bytes that a card may have.
const MOST: usize = 65536;

// The first n bytes as a line; nothing where there are none.
fn say_first<W: Write>(to: &mut W, bytes: &[u8], n: usize) -> io::Result<()> {
    if n == 0 || n > bytes.len() {
        return Ok(());
    }
    to.write_all(&bytes[..n])?;
    to.write_all(b"\n")
}

// The sentence on a card, if there is one.
fn tell<W: Write>(to: &mut W, text: &[u8]) -> io::Result<()> {
    let mut line = [0u8; 256];
    match card_text::sentence(text, &mut line) {
        Ok(n) => say_first(to, &line, n),
        Err(_) => Ok(()),
    }
}

// The station of a card without a mistake.
fn write_station<W: Write>(to: &mut W, text: &[u8]) -> io::Result<()> {
    let mut bytes = [0u8; 237];
    match card::station(text, &mut bytes) {
        Ok(()) => to.write_all(&bytes),
        Err(_) => Ok(()),
    }
}

fn main(rt: HostRuntime) -> io::Result<()> {
    // one byte more than a card may have, so that a longer one is noticed
    let mut text = [0u8; 65537];
    let mut standard_input = rt.stdin();
    let n = read_full(&mut standard_input, &mut text)?;
    skip_rest(&mut standard_input)?;
    if MOST < n {
        return rt.stderr().write_all(b"a card has at most 65,536 bytes\n");
    }
    let told = tell(&mut rt.stderr(), &text[..n]);
    write_station(&mut rt.stdout(), &text[..n])?;
    told
}
