#![tactic(auto)]

// What a buyer asks of a row, and of two: where the greatest number behind is (`behind_of`, from 90 to
// 270; `behind-greatest`, `behind-first`), how far it lies below the front (`front_to_back`), how wide the
// beam is at 3 dB (`beam_of`; at most 360: `beam_most`), and in how many azimuths one row leads another
// (`leads_of`; two rows never lead each other at once: `leads-apart`, `leads_sum`). Definitions in
// specs/Figures.antt, laws in proofs/Laws.antt. Rows are 360 raised hundredths as crate `hundredths` has
// them, with kinds, as `dial::Row` has them or by their codes, 0 a level, 1 a floor, more a silence; all is
// said of any numbers.
ghost use Rattle.std.specs.Prelude.{◌≡◌, ◌+◌, ◌-◌, ◌≤◌, ◌<◌, leb, length, map};
ghost use Rattle.dial.specs.Kinds.{coded};
ghost use Rattle.dial.specs.Scale.{peak_azimuth};
ghost use Rattle.words.specs.Writing.{Put};
ghost use Rattle.figures.specs.Figures.{behind_of, difference, steps_of, beam_of, leads_at, leads_of};

use answers::Kind;
use dial::{Row, better, coded_row, peak_azimuth};
use hundredths::decimals::push_hundredths;
use words::page::Page;

// The azimuth of the greatest number from 90 to 270.
#[tactic(auto, using(crate::proofs::Laws::behind_none, crate::proofs::Laws::behind_more), unfolding(crate::specs::Figures::behind_of))]
pub fn behind(numbers: &[u32; 360]) -> usize
    ensures { (result ≡ behind_of numbers.now) × (result < 360) }
{
    let mut best = 90;
    for v in 91..271 {
        best = better(numbers, best, v);
    }
    best
}

// Inner step: words and the difference of two raised numbers, with a sign where it's below 0.
pub fn push_difference<const N: usize>(page: &mut Page<N>, words: &[u8], a: u32, b: u32)
    requires { length page.old + (length words.now + 14) ≤ N }
    ensures { Put (length words.now + 14) page.old (difference words.now a b) page.new }
{
    page.push_bytes(words);
    if b <= a {
        push_hundredths(page, a - b);
    } else {
        page.push(b'-');
        push_hundredths(page, b - a);
    }
}

// Whether a number is at most 3 dB below the peak.
fn is_near(peak: u32, number: u32) -> bool
    ensures { result ≡ leb (peak - number) 300 }
{
    peak.saturating_sub(number) <= 300
}

// How many steps one can go from the peak within 3 dB, 359 at most.
fn steps(numbers: &[u32; 360], start: usize, turn: usize) -> usize
    requires { (start ≡ peak_azimuth numbers.now) × (start < 360) × (turn < 360) }
    ensures { (result ≡ steps_of numbers.now turn) × (result ≤ 359) }
{
    let peak = numbers[start];
    let mut v = (start + turn) % 360;
    for n in 0..359 {
        if !is_near(peak, numbers[v]) {
            return n;
        }
        v = (v + turn) % 360;
    }
    359
}

// The width of the beam at 3 dB, in degrees.
#[tactic(auto, unfolding(crate::specs::Figures::beam_of))]
pub fn beam(numbers: &[u32; 360]) -> usize
    ensures { (result ≡ beam_of numbers.now) × (result ≤ 360) }
{
    let peak_at = peak_azimuth(numbers);
    let clockwise = steps(numbers, peak_at, 1);
    if clockwise == 359 {
        return 360;
    }
    clockwise + 1 + steps(numbers, peak_at, 359)
}

// Inner step: whether a row leads another's numbers at an azimuth.
#[tactic(auto, unfolding(crate::specs::Figures::leads_at))]
pub fn leads_at(first: &Row, second: &[u32; 360], v: usize) -> bool
    requires { v < 360 }
    ensures { result ≡ leads_at first.now.numbers first.now.kinds second.now v }
{
    matches!(first.kinds[v], Kind::Level) && second[v] < first.numbers[v]
}

// Inner step: in how many azimuths a row leads another's numbers.
#[tactic(auto, using(crate::proofs::Laws::count_none, crate::proofs::Laws::count_more), unfolding(crate::specs::Figures::leads_of))]
pub fn leads_over(first: &Row, second: &[u32; 360]) -> usize
    ensures { (result ≡ leads_of first.now.numbers first.now.kinds second.now) × (result ≤ 360) }
{
    // a loop: of `(0..360).filter(..).count()` the search unfolds all 360 numbers, and gives up
    let mut n = 0;
    for v in 0..360 {
        if leads_at(first, second, v) {
            n += 1;
        }
    }
    n
}

// In how many azimuths the first row, with its kinds by their codes, leads the second.
pub fn leads(first: &[u32; 360], kinds: &[u8; 360], second: &[u32; 360]) -> usize
    ensures { (result ≡ leads_of first.now (map coded kinds.now) second.now) × (result ≤ 360) }
{
    leads_over(&coded_row(first, kinds), second)
}
