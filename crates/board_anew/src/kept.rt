// What the board keeps, worked out from the stations' places, and shown.
ghost use Rattle.std.specs.Prelude.{◌≡◌, true, ◌+◌, ◌*◌, ◌≤◌, ◌<◌, length, get_or};
ghost use Rattle.std.specs.Float.{binary32};
ghost use Rattle.std.specs.Float.Ieee.{of_bits};
ghost use Rattle.board_air.specs.Stations.{up_to};
ghost use Rattle.board_air.specs.Words.{air_size, count_in, kept_of, stations_to, stations_on, stations_ok, air_ok, same_words};
ghost use Rattle.board_kept.specs.Steps.{kept_by, renewed};

use board_kept::kept::{put_nobody, raise, raise_vacated, same_words, vacated};
use words::patterns::read_bits;

// Worked out afresh from the first n places: a place at a time, as its words are neighbours.
fn afresh(air: &[u32], n: usize) -> [u32; 720]
    requires { (length air.now ≡ air_size) × (n ≤ 16) × (stations_ok (stations_to air.now n) ≡ true) }
    ensures { result ≡ kept_of (stations_to air.now n) }
{
    let mut kept = [0u32; 720];
    put_nobody(&mut kept);
    for k in 0..n {
        let from = 2 + 361 * k;
        let end = 360 + from;
        raise(&mut kept, air[1 + 361 * k], &air[from..end]);
    }
    kept
}

// Whether what is kept is what those on the air show.
// Inner step: of `board`'s test of its words, once the air is accepted.
#[tactic(auto, using(crate::proofs::Parts::air_counts), unfolding(board_air::specs::Words::stations_on))]
pub fn kept_ok(air: &[u32], kept: &[u32]) -> bool
    requires { (air_ok air.now ≡ true) × (length kept.now ≡ 720) }
    ensures { result ≡ same_words kept.now (kept_of (stations_on air.now)) }
{
    let fresh = afresh(air, air[0] as usize);
    same_words(kept, &fresh)
}

// What is kept after one is gone, with the first n places left: a place at a time, as its words
// are neighbours.
fn anew(air: &[u32], n: usize, kept: &[u32], gone: u32) -> [u32; 720]
    requires { (length air.now ≡ air_size) × (n ≤ 16) × (stations_ok (stations_to air.now n) ≡ true) × (length kept.now ≡ 720) }
    ensures { result ≡ kept_by (renewed gone (stations_to air.now n) kept.now) }
{
    let mut left = vacated(kept, gone);
    for k in 0..n {
        let from = 2 + 361 * k;
        let end = 360 + from;
        raise_vacated(&mut left, kept, gone, air[1 + 361 * k], &air[from..end]);
    }
    left
}

// One gone, with those left on the air.
// Inner step: of `board::leave`, past its refusals.
#[tactic(auto, unfolding(board_air::specs::Words::stations_on))]
pub fn renew(kept: &mut [u32], air: &[u32], gone: u32)
    requires { (length air.now ≡ air_size) × (count_in air.now ≤ 16) × (stations_ok (stations_on air.now) ≡ true) × (length kept.old ≡ 720) }
    ensures { kept.new ≡ kept_by (renewed gone (stations_on air.now) kept.old) }
{
    let left = anew(air, air[0] as usize, kept, gone);
    kept.copy_from_slice(&left);
}

// What is kept, over the lent numbers and ids.
// Inner step: of `board::show`, past its refusals. The ids go one by one: with `copy_from_slice`
// the archive for C needs memmove from outside.
pub fn put_kept(kept: &[u32], numbers: &mut [f32], ids: &mut [u32])
    requires { (length kept.now ≡ 720) × (length numbers.old ≡ 360) × (length ids.old ≡ 360) }
    ensures numbers_after { numbers.new ≡ up_to (λ v. of_bits binary32 (get_or kept.now v 0)) 360 }
    ensures ids_after { ids.new ≡ up_to (λ v. get_or kept.now (360 + v) 0) 360 }
{
    read_bits(kept, 0, numbers);
    for v in 0..360 {
        ids[v] = kept[360 + v];
    }
}
