// Floats, modes and stations as the words and floats of a lent slice.
ghost use Rattle.std.specs.Prelude.{◌≡◌, ◌≤◌, min, length};
ghost use Rattle.packed.specs.Lists.{floats, part};

use crate::arrays::{floats_at, floats_in};
use station::Station;

// A word as a mode. One above 255 is as wrong as 255.
pub fn mode_of(word: u32) -> u8
    ensures { result ≡ min word 255 }
{
    word.min(255) as u8
}

// The floats after the first word. Inner step: it asks for 57 words.
pub fn floats_of(words: &[u32]) -> [f32; 56]
    requires { length words.now ≡ 57 }
    ensures { result ≡ part (floats words.now) 1 56 }
{
    floats_in(words, 1)
}

// The station of a mode and the floats in front: parm, gainmax, gainmaxb. Inner step: it asks for 56 floats.
pub fn station_at(mode: u32, floats: &[f32]) -> Station
    requires { 56 ≤ length floats.now }
    ensures { result ≡ record { mode = min mode 255; parm = part floats.now 0 20; gainmax = part floats.now 20 6; gainmaxb = part floats.now 26 30 } }
{
    Station {
        mode: mode_of(mode),
        parm: floats_at(floats, 0),
        gainmax: floats_at(floats, 20),
        gainmaxb: floats_at(floats, 26),
    }
}
