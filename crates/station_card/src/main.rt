#![tactic(auto)]

// The program `station_card`: a station's 237 bytes on standard input, its card on standard output.
// `card_back::card_of` says what the card is; no contract can say what is read or written. Where there
// is no card standard output stays empty, and the refusal's number stands on standard error. The stored
// run is a station of type 7.
use card_back::card_of;
use standard_input::{read_full, skip_rest};
use std::io;
use std::io::Write;

fn main(rt: HostRuntime) -> io::Result<()> {
    // one byte more than a station has, so that a longer input is noticed
    let mut input = [0u8; 238];
    let mut standard_input = rt.stdin();
    let n = read_full(&mut standard_input, &mut input)?;
    skip_rest(&mut standard_input)?;
    let mut card = [0u8; 8192];
    match card_of(&input[..n], &mut card) {
        Ok(end) => rt.stdout().write_all(&card[..end]),
        Err(r) => eprintln!(rt; "refused {}", u8::from(r)),
    }
}
