// Whether a service is on the air at a minute of the day.
ghost use Rattle.std.specs.Prelude.{◌≡◌};
ghost use Rattle.answers.specs.Outcome.{outcome, number_of};
ghost use Rattle.calendar.specs.Hours.{is_open, hours_refusal};
ghost use Rattle.calendar.specs.Answers.{open_of};

use answers::Refusal;

// Three minutes of the day, or the refusal.
#[tactic(auto, unfolding(crate::specs::Hours::hours_refusal))]
fn check(first: u32, end: u32, minute: u32) -> Result<(), Refusal>
    ensures { number_of result ≡ hours_refusal first end minute }
{
    if (first <= 1439) & (end <= 1439) & (minute <= 1439) {
        Ok(())
    } else {
        Err(Refusal::Calendar)
    }
}

// Past midnight and, as the two halves of the day then, all day.
#[tactic(auto, unfolding(crate::specs::Hours::is_open))]
fn is_open(first: u32, end: u32, minute: u32) -> bool
    ensures { result ≡ is_open first end minute }
{
    if first < end {
        (first <= minute) & (minute < end)
    } else {
        (first <= minute) | (minute < end)
    }
}

// Whether a service that runs from its first minute to its end minute is open.
#[tactic(auto, using(answers::proofs::Outcome::refused_by), unfolding(crate::specs::Answers::open_of))]
pub fn open(first: u32, end: u32, minute: u32) -> Result<bool, Refusal>
    ensures { outcome result ≡ open_of first end minute }
{
    check(first, end, minute)?;
    Ok(is_open(first, end, minute))
}
