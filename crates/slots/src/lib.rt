// Which slot of twenty parameters a refusal is about: the lowest number that a slot breaks, and the
// lowest slot that breaks it. A crate with limits has its own `why`, which tells by `lowest_broken` what its test
// "this slot breaks this limit" gives; what is told is defined over the test (specs/Told.antt, `told`), and
// proved to be what the first sentence says (proofs/Lowest.antt, `told-lowest` and `told-nothing`).

#![tactic(auto)]

ghost use Rattle.std.specs.Prelude.{◌≡◌, ℕ, ◌<◌};
ghost use Rattle.answers.specs.Outcome.{number};
ghost use Rattle.slots.specs.Told.{Breaks, told_of, lowest, told};

use answers::Refusal;

// This refusal, by this slot.
#[derive(Clone, Copy, Debug, PartialEq, Eq)]
pub struct Broken {
    pub refusal: Refusal,
    pub slot: u32,
}

// The refusals that are about a slot, lowest number first.
const ABOUT_SLOTS: [Refusal; 6] = [
    Refusal::Value,
    Refusal::Type,
    Refusal::Mode,
    Refusal::Band,
    Refusal::Count,
    Refusal::Aim,
];

// The lowest slot that breaks this limit by the test.
fn lowest_slot<F: Fn(Refusal, usize) -> bool>(breaks: &F, refusal: Refusal) -> Option<Broken>
    requires { (s : ℕ) → s < 20 → F.pre breaks.now refusal s }
    ensures { (test : Breaks) → ((s : ℕ) (x : _) → s < 20 → F.post breaks.now refusal s x → x ≡ test (number refusal) s) → told_of result ≡ lowest test (number refusal) 20 0 }
{
    for slot in 0..20 {
        if breaks(refusal, slot) {
            return Some(Broken {
                refusal,
                slot: slot as u32,
            });
        }
    }
    None
}

// The lowest of these that a slot breaks by the test, and the lowest slot that breaks it.
pub fn lowest_broken<F: Fn(Refusal, usize) -> bool>(breaks: F) -> Option<Broken>
    requires { (r : _) (s : ℕ) → s < 20 → F.pre breaks r s }
    ensures { (test : Breaks) → ((r : _) (s : ℕ) (x : _) → s < 20 → F.post breaks r s x → x ≡ test (number r) s) → told_of result ≡ told test }
{
    for refusal in ABOUT_SLOTS {
        if let Some(found) = lowest_slot(&breaks, refusal) {
            return Some(found);
        }
    }
    None
}
