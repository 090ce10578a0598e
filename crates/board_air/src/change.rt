// The words of the air, changed: one more station, one fewer.
ghost use Rattle.std.specs.Prelude.{◌≡◌, ◌∷◌, map, true, ◌+◌, ◌≤◌, ◌<◌, length, drop, replicate};
ghost use Rattle.std.specs.Float.{binary32};
ghost use Rattle.std.specs.Float.Ieee.{to_bits};
ghost use Rattle.words.specs.Laid.{laid};
ghost use Rattle.board_air.specs.Stations.{station};
ghost use Rattle.board_air.specs.Runs.{on, without};
ghost use Rattle.board_air.specs.Words.{place_of, air_of, air_ok, stations_on};

use crate::AIR;
use crate::places::slot_of;
use numeric::bits::bits_of;
use std::array;
use words::patterns::put_bits;

// Zeros over n words from `at` on.
#[tactic(auto, unfolding(words::specs::Laid::laid))]
pub(crate) fn clear(words: &mut [u32], at: usize, n: usize)
    requires { at + n ≤ length words.old }
    ensures { words.new ≡ laid words.old at (replicate n 0) }
{
    words[at..at + n].fill(0);
}

// A station's place from word `at` on.
pub(crate) fn put_station(words: &mut [u32], at: usize, id: u32, row: &[f32])
    requires { at + 1 + length row.now ≤ length words.old }
    ensures { words.new ≡ laid words.old at (place_of (station id row.now)) }
{
    words[at] = id;
    put_bits(words, at + 1, row);
}

// The words after the place at word `at` are moved up over it.
#[tactic(auto, unfolding(words::specs::Laid::laid))]
pub(crate) fn close_gap(words: &mut [u32], at: usize)
    requires { at + 361 ≤ length words.old }
    ensures { words.new ≡ laid words.old at (drop (at + 361) words.old) }
{
    words.copy_within(at + 361.., at);
}

// A row's bits.
// Inner step: of `board::join`, past its refusals.
pub fn row_bits(row: &[f32]) -> [u32; 360]
    requires { length row.now ≡ 360 }
    ensures { result ≡ map (to_bits binary32) row.now }
{
    array::from_fn(|v| bits_of(row[v]))
}

// One more, in the place after the others'.
// Inner step: of `board::join`, past its refusals.
pub fn enter(air: &mut [u32], id: u32, row: &[f32])
    requires { (air_ok air.old ≡ true) × (length (stations_on air.old) < 16) × (length row.now ≡ 360) }
    ensures { air.new ≡ air_of (station id row.now ∷ stations_on air.old) }
{
    let n = air[0] as usize;
    put_station(air, 1 + 361 * n, id, row);
    air[0] = (n as u32) + 1;
}

// One fewer: those that joined after it move up a place.
// Inner step: of `board::leave`, past its refusals.
pub fn remove(air: &mut [u32], id: u32)
    requires { (air_ok air.old ≡ true) × (on id (stations_on air.old) ≡ true) }
    ensures { air.new ≡ air_of (without id (stations_on air.old)) }
{
    let n = air[0] as usize;
    let slot = slot_of(air, n, id).unwrap();
    close_gap(air, 1 + 361 * slot);
    clear(air, AIR - 361, 361);
    air[0] = (n as u32) - 1;
}
