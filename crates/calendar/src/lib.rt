#![tactic(auto)]

// Seasons and service hours, of the years 2000 to 2099 in UTC; it knows nothing of antennas.
// `seasons::season` tells the season at a time (specs/Seasons.antt, `season_at`) and
// `seasons::next_change` the next change (`next_change`), or refusal 11 for what is no time of these
// years (specs/Times.antt, `is_time`); `hours::open` tells whether a service is open at a minute of
// the day (specs/Hours.antt, `is_open`), or 11. Each answers any numbers.
// Days are counted one by one from 1 January 2000, a Saturday (specs/Days.antt; `first-day`,
// `next-day`, `next-month`, `next_year` in proofs/Days.antt), so that the last Sunday of a month is a
// Sunday that no other follows there (`last-sunday`, `only-last-sunday`). Proved besides: changes
// fall on Sundays from the 25th on (`change_days` in proofs/ChangeLaws.antt); the next change is later
// than the time given and none lies between, and the season stays until then and turns there
// (`next-change`, `last-change`, `season_stays`, `season_turns` in proofs/SeasonLaws.antt); a service
// is open at its first minute, shut at its end, and else as the minute before (proofs/HourLaws.antt).
pub mod hours;
pub mod seasons;
pub mod time;
