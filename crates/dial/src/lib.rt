#![tactic(auto)]

// The dial of a plate: the peak of a row (`peak_azimuth`; no number is above it, and those before it
// are below: `peak-greatest`, `peak-first`), rings every 10 dB from a bottom to a top ring (`bottom_of`,
// `top_of`; no gain of the row is above the top: `top_above`), and how far from the centre a gain lies
// (`radius_of`, specs/Scale.antt; proofs/Laws.antt). Gains are hundredths of dBi, raised by 100,000 as
// crate `hundredths` has them.
ghost use Rattle.std.specs.Prelude.{◌≡◌, ◌≤◌, ◌<◌, map};
ghost use Rattle.dial.specs.Kinds.{coded};
ghost use Rattle.dial.specs.Scale.{better_of, peak_azimuth, top_of, bottom_of, span_of, radius_of};

use answers::Kind;

// A row: raised hundredths azimuth by azimuth, and what each is.
#[derive(Clone, Copy)]
pub struct Row {
    pub numbers: [u32; 360],
    pub kinds: [Kind; 360],
}

// A code above 1 is a silence, as in a row of a plate.
#[tactic(auto, unfolding(crate::specs::Kinds::coded))]
fn kind_of(code: u8) -> Kind
    ensures { result ≡ coded code }
{
    match code {
        0 => Kind::Level,
        1 => Kind::Floor,
        _ => Kind::Silence,
    }
}

// Inner step: a row whose kinds are told by their codes.
pub fn coded_row(numbers: &[u32; 360], codes: &[u8; 360]) -> Row
    ensures numbers { result.numbers ≡ numbers.now }
    ensures kinds { result.kinds ≡ map coded codes.now }
{
    Row {
        numbers: *numbers,
        kinds: codes.map(kind_of),
    }
}

// Inner step: of two azimuths the one whose number is greater.
#[tactic(auto, unfolding(crate::specs::Scale::better_of))]
pub fn better(numbers: &[u32; 360], best: usize, v: usize) -> usize
    requires { (best < 360) × (v < 360) }
    ensures { (result ≡ better_of numbers.now best v) × (result < 360) }
{
    if numbers[best] < numbers[v] {
        return v;
    }
    best
}

pub fn peak_azimuth(numbers: &[u32; 360]) -> usize
    ensures { (result ≡ peak_azimuth numbers.now) × (result < 360) }
{
    let mut best = 0;
    for v in 1..360 {
        best = better(numbers, best, v);
    }
    best
}

#[tactic(auto, unfolding(crate::specs::Scale::top_of))]
fn top(peak: u32) -> u32
    requires { peak ≤ 200000 }
    ensures { (result ≡ top_of peak) × (98000 ≤ result) × (result ≤ 200999) }
{
    ((peak + 999) / 1000 * 1000).max(98000)
}

// Inner step, for a peak of at most 1,000 dBi, which a picture asks first: the innermost ring, in
// hundredths from -1,000 dB.
#[tactic(auto, unfolding(crate::specs::Scale::bottom_of))]
pub fn bottom(peak: u32) -> u32
    requires { peak ≤ 200000 }
    ensures { (result ≡ bottom_of peak) × (result ≤ 200999) }
{
    (top(peak) - 6000).max(97000)
}

// Inner step, for such a peak: the hundredths from the innermost ring to the outermost.
#[tactic(auto, unfolding(crate::specs::Scale::span_of, crate::specs::Scale::bottom_of))]
pub fn span(peak: u32) -> u32
    requires { peak ≤ 200000 }
    ensures { (result ≡ span_of peak) × (1000 ≤ result) × (result ≤ 6000) }
{
    top(peak) - bottom(peak)
}

// Inner step, for such a peak: how far from the centre a gain lies.
#[tactic(auto, using(crate::proofs::Laws::share), unfolding(crate::specs::Scale::radius_of))]
pub fn radius(peak: u32, gain: u32) -> u32
    requires { peak ≤ 200000 }
    ensures { (result ≡ radius_of peak gain) × (result ≤ 3100) }
{
    let whole = span(peak);
    let part = gain.saturating_sub(bottom(peak)).min(whole);
    400 + part * 2700 / whole
}
