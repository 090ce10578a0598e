#![tactic(auto)]

// Seasons and service hours as `service` lends them, their answers as one number. `season`, `next_season`
// and `open` take any words, and answer what `calendar` answers of them (specs/Calendar.antt); the next
// change is left in four lent words, which a refusal leaves as they were.
ghost use Rattle.std.specs.Prelude.{◌≡◌, length};
ghost use Rattle.answers.specs.Outcome.{outcome};
ghost use Rattle.packed.specs.Lists.{left};
ghost use Rattle.calendar_calls.specs.Calendar.{time_words, next_left, season_call, next_season_call, open_call};

use answers::Refusal;
use calendar::seasons::{BroadcastSeason, next_change};
use calendar::time::Time;
use packed::refused;

// The season at a time: 0 for A, 1 for B.
#[tactic(auto, unfolding(crate::specs::Calendar::season_call, crate::specs::Calendar::numbered))]
pub fn season(year: u32, month: u32, day: u32, minute: u32) -> u64
    ensures { result ≡ season_call year month day minute }
{
    let t = Time {
        year,
        month,
        day,
        minute,
    };
    match calendar::seasons::season(t) {
        Ok(BroadcastSeason::A) => 0,
        Ok(BroadcastSeason::B) => 1,
        Err(r) => refused(r),
    }
}

fn put_time(t: Time, out: &mut [u32])
    requires { length out.old ≡ 4 }
    ensures { out.new ≡ time_words t }
{
    out[0] = t.year;
    out[1] = t.month;
    out[2] = t.day;
    out[3] = t.minute;
}

// 1 with the change in the lent words, 0 where there is none, or kind 3 with a refusal's number.
#[tactic(auto, unfolding(crate::specs::Calendar::next_left))]
fn put_next(next: Result<Option<Time>, Refusal>, out: &mut [u32]) -> u64
    requires { length out.old ≡ 4 }
    ensures { left result out.new ≡ next_left (outcome next) out.old }
{
    match next {
        Ok(Some(c)) => {
            put_time(c, out);
            1
        }
        Ok(None) => 0,
        Err(r) => refused(r),
    }
}

// The next change of season; 8 first for words of another number.
#[tactic(auto, unfolding(crate::specs::Calendar::next_season_call, crate::specs::Calendar::next_left))]
pub fn next_season(year: u32, month: u32, day: u32, minute: u32, out: &mut [u32]) -> u64
    ensures { left result out.new ≡ next_season_call year month day minute out.old }
{
    if out.len() != 4 {
        return refused(Refusal::Space);
    }
    put_next(
        next_change(Time {
            year,
            month,
            day,
            minute,
        }),
        out,
    )
}

// 1 where a service is open at a minute of the day, 0 where it is shut.
#[tactic(auto, unfolding(crate::specs::Calendar::open_call, crate::specs::Calendar::numbered))]
pub fn open(first: u32, end: u32, minute: u32) -> u64
    ensures { result ≡ open_call first end minute }
{
    match calendar::hours::open(first, end, minute) {
        Ok(is_open) => u64::from(is_open),
        Err(r) => refused(r),
    }
}
