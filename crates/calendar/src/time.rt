// A time of the calendar, and whether there is such a one.
ghost use Rattle.std.specs.Prelude.{◌≡◌};
ghost use Rattle.calendar.specs.Days.{leap, month_length};
ghost use Rattle.answers.specs.Outcome.{number_of};
ghost use Rattle.calendar.specs.Times.{is_date, refusal_of};

use answers::Refusal;

// A date and a minute of the day in UTC, in the order of time; January is month 1.
#[derive(Clone, Copy, Debug, PartialEq, Eq, PartialOrd, Ord)]
pub struct Time {
    pub year: u32,
    pub month: u32,
    pub day: u32,
    pub minute: u32,
}

// The months' days in a year that isn't a leap year; there is no month 0.
const LENGTHS: [u32; 13] = [0, 31, 28, 31, 30, 31, 30, 31, 31, 30, 31, 30, 31];

#[tactic(auto, unfolding(crate::specs::Days::leap))]
fn is_leap(year: u32) -> bool
    ensures { result ≡ leap year }
{
    (year % 4 == 0) & ((year % 100 != 0) | (year % 400 == 0))
}

fn month_length(year: u32, month: u32) -> u32
    ensures { result ≡ month_length year month }
{
    if 12 < month {
        return 0;
    }
    if (month == 2) & is_leap(year) {
        return 29;
    }
    LENGTHS[month as usize]
}

#[tactic(auto, unfolding(crate::specs::Times::is_date))]
fn is_date(t: Time) -> bool
    ensures { result ≡ is_date t }
{
    (2000 <= t.year) & (t.year <= 2099) & (1 <= t.day) & (t.day <= month_length(t.year, t.month))
}

// A time of these years, or the refusal.
#[tactic(auto, unfolding(crate::specs::Times::refusal_of, crate::specs::Times::is_time))]
pub(crate) fn check(t: Time) -> Result<(), Refusal>
    ensures { number_of result ≡ refusal_of t }
{
    if is_date(t) & (t.minute <= 1439) {
        Ok(())
    } else {
        Err(Refusal::Calendar)
    }
}
