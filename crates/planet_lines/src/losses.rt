// A part of the pattern, and its losses: its greatest hundredths less each entry's.
ghost use Rattle.std.specs.Prelude.{◌≡◌, true, ◌≤◌, pos};
ghost use Rattle.planet_lines.specs.Losses.{all_in_span, loss_at, top};

use hundredths::rounding::{in_span, raised};

// Whether every number is at most 1,000 in size.
#[tactic(auto, unfolding(crate::specs::Losses::all_in_span))]
pub fn all_in_span(numbers: &[f32]) -> bool
    ensures { result ≡ all_in_span numbers.now }
{
    numbers.iter().all(|x| in_span(*x))
}

// The greatest hundredths, raised.
#[tactic(auto, using(crate::proofs::Greatest::span_at), unfolding(crate::specs::Losses::top, crate::specs::Losses::top_to))]
fn greatest_raised(numbers: &[f32]) -> u32
    requires { all_in_span numbers.now ≡ true }
    ensures { result ≡ top numbers.now }
{
    let mut greatest = 0;
    for x in numbers {
        greatest = u32::max(greatest, raised(*x));
    }
    greatest
}

// A part's numbers, all in span, with the greatest of their raised hundredths.
#[derive(Clone, Copy)]
pub(crate) struct Part<'a> {
    pub(crate) numbers: &'a [f32],
    pub(crate) greatest: u32,
    ghost spanned: { all_in_span numbers.now ≡ true },
    ghost highest: { greatest ≡ top numbers.now },
}

impl Part<'_> {
    #[tactic(auto, using(crate::proofs::Greatest::top_le))]
    pub(crate) fn new(numbers: &[f32]) -> Part
        requires { all_in_span numbers.now ≡ true }
        ensures same { result.numbers.now ≡ numbers.now }
        ensures upper_bound { result.greatest ≤ 200000 }
    {
        Part {
            numbers,
            greatest: greatest_raised(numbers),
        }
    }

    // The loss at an angle, in hundredths; 99.99 below ground.
    #[tactic(auto, using(crate::proofs::Greatest::span_at, crate::proofs::Greatest::entry_le, crate::proofs::Greatest::top_le, crate::proofs::Greatest::loss_is), unfolding(crate::specs::Losses::loss_at))]
    pub(crate) fn loss_at(self, angle: usize) -> u32
        ensures loss { pos result ≡ loss_at self.entry.numbers.now angle }
        ensures upper_bound { result ≤ 200000 }
    {
        if angle < self.numbers.len() {
            self.greatest - raised(self.numbers[angle])
        } else {
            9999
        }
    }
}
