// The season at a time, and the next change.
ghost use Rattle.std.specs.Prelude.{◌≡◌, true, ◌+◌, ◌-◌, ◌/◌, ◌%◌, ◌≤◌};
ghost use Rattle.calendar.specs.Times.{is_time};
ghost use Rattle.calendar.specs.Seasons.{to_a, to_b, season_at, next_change};
ghost use Rattle.answers.specs.Outcome.{outcome};
ghost use Rattle.calendar.specs.Answers.{season_of, next_of};

use crate::time::{Time, check};
use answers::Refusal;

#[derive(Clone, Copy, Debug, PartialEq, Eq)]
pub enum BroadcastSeason {
    A,
    B,
}

// A change comes at 01:00.
const AT_MINUTE: u32 = 60;

// The change on the last Sunday of a month of 31 days, whose last day in 2000 was `past` days past a
// Sunday. That day moves on by a weekday each year, and by another where a 29 February lies between.
fn change(year: u32, month: u32, past: u32) -> Time
    requires { (2000 ≤ year) × (year ≤ 2099) × (past ≤ 6) }
    ensures { result ≡ record { year = year; month = month; day = 31 - (year - 2000 + (year - 2000) / 4 + past) % 7; minute = 60 } }
{
    let years = year - 2000;
    Time {
        year,
        month,
        day: 31 - (years + years / 4 + past) % 7,
        minute: AT_MINUTE,
    }
}

// The change to A. 31 March 2000 was a Friday.
#[tactic(auto, using(crate::proofs::Changes::march_day))]
fn to_a(year: u32) -> Time
    requires { (2000 ≤ year) × (year ≤ 2099) }
    ensures { result ≡ to_a year }
{
    change(year, 3, 5)
}

// The change to B. 31 October 2000 was a Tuesday.
#[tactic(auto, using(crate::proofs::Changes::october_day))]
fn to_b(year: u32) -> Time
    requires { (2000 ≤ year) × (year ≤ 2099) }
    ensures { result ≡ to_b year }
{
    change(year, 10, 2)
}

#[tactic(auto, using(crate::proofs::Changes::in_years, crate::proofs::Changes::before_a, crate::proofs::Changes::before_b), unfolding(crate::specs::Seasons::season_at))]
fn season_at(t: Time) -> BroadcastSeason
    requires { is_time t ≡ true }
    ensures { result ≡ season_at t }
{
    if t < to_a(t.year) {
        return BroadcastSeason::B;
    }
    if t < to_b(t.year) {
        return BroadcastSeason::A;
    }
    BroadcastSeason::B
}

// The season at a time.
#[tactic(auto, using(answers::proofs::Outcome::refused_by, crate::proofs::Times::none_refused), unfolding(crate::specs::Answers::season_of))]
pub fn season(t: Time) -> Result<BroadcastSeason, Refusal>
    ensures { outcome result ≡ season_of t }
{
    check(t)?;
    Ok(season_at(t))
}

// The first change of a time's year or the next that is later.
#[tactic(auto, using(crate::proofs::Changes::in_years, crate::proofs::Changes::before_a, crate::proofs::Changes::before_b, crate::proofs::Changes::next_of_two, crate::proofs::Changes::next_year_first))]
fn next_after(t: Time) -> Option<Time>
    requires { is_time t ≡ true }
    ensures { result ≡ next_change t }
{
    let march = to_a(t.year);
    if t < march {
        return Some(march);
    }
    let october = to_b(t.year);
    if t < october {
        return Some(october);
    }
    if t.year == 2099 {
        return None;
    }
    Some(to_a(t.year + 1))
}

// The next change of season, always later than the time given.
#[tactic(auto, using(answers::proofs::Outcome::refused_by, crate::proofs::Times::none_refused), unfolding(crate::specs::Answers::next_of))]
pub fn next_change(t: Time) -> Result<Option<Time>, Refusal>
    ensures { outcome result ≡ next_of t }
{
    check(t)?;
    Ok(next_after(t))
}
