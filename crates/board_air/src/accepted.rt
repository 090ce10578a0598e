// Which words are an air's: those that a run of joins and leaves can leave.
ghost use Rattle.std.specs.Prelude.{◌≡◌, ◌+◌, ◌≤◌, ◌<◌, length, drop};
ghost use Rattle.std.specs.Float.{binary32};
ghost use Rattle.std.specs.Float.Ieee.{of_bits};
ghost use Rattle.std.specs.Float.Ieee.Scale.{finite};
ghost use Rattle.floats.specs.Ranges.{all_finite};
ghost use Rattle.board_air.specs.Runs.{is_id};
ghost use Rattle.board_air.specs.Words.{air_size, row_in, station_at, stations_to, station_ok, stations_ok, blank, air_ok};

use crate::AIR;
use crate::places::is_on;

// Inner step: of the refusals.
#[tactic(auto, unfolding(crate::specs::Runs::is_id))]
pub fn is_id(id: u32) -> bool
    ensures { result ≡ is_id id }
{
    0 < id && id <= 65535
}

// Whether these are a finite number's bits, by the exponent's field alone: quicker than to read it.
#[tactic(auto, using(crate::proofs::Bits::finite_bits))]
fn finite_bits(word: u32) -> bool
    ensures { result ≡ finite (of_bits binary32 word) }
{
    word % 0x8000_0000 < 0x7F80_0000
}

// Whether 360 words are finite numbers' bits: all are looked at, so that the compiler takes several in
// a turn.
fn row_ok(air: &[u32], at: usize) -> bool
    requires { at + 360 ≤ length air.now }
    ensures { result ≡ all_finite (row_in air.now at) }
{
    air[at..at + 360]
        .iter()
        .fold(true, |ok, word| ok & finite_bits(*word))
}

// Whether place k has an id that no place before it has, and finite numbers.
#[tactic(auto, unfolding(crate::specs::Words::station_ok, crate::specs::Words::station_at))]
fn station_ok(air: &[u32], k: usize) -> bool
    requires { (length air.now ≡ air_size) × (k < 16) }
    ensures { result ≡ station_ok (station_at air.now k) (stations_to air.now k) }
{
    let at = 361 * k;
    let id = air[1 + at];
    is_id(id) && !is_on(air, k, id) && row_ok(air, 2 + at)
}

fn stations_ok(air: &[u32], n: usize) -> bool
    requires { (length air.now ≡ air_size) × (n ≤ 16) }
    ensures { result ≡ stations_ok (stations_to air.now n) }
{
    (0..n).all(|k| station_ok(air, k))
}

// Whether all words from `at` on are 0; all are looked at here too.
fn blank_from(air: &[u32], at: usize) -> bool
    requires { at ≤ length air.now }
    ensures { result ≡ blank (drop at air.now) }
{
    air[at..].iter().fold(true, |ok, word| ok & (*word == 0))
}

// Inner step: of `board`'s test of all its words.
#[tactic(auto, unfolding(crate::specs::Words::air_ok, crate::specs::Words::stations_on))]
pub fn air_ok(air: &[u32]) -> bool
    ensures { result ≡ air_ok air.now }
{
    if air.len() != AIR {
        return false;
    }
    let n = air[0] as usize;
    if n > 16 {
        return false;
    }
    stations_ok(air, n) && blank_from(air, 1 + 361 * n)
}
