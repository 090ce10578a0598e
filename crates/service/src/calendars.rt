// Seasons and service hours, their answers as one number; `calendar_calls` has what each call does.
ghost use Rattle.std.specs.Prelude.{◌≡◌};
ghost use Rattle.packed.specs.Lists.{left};
ghost use Rattle.calendar_calls.specs.Calendar.{season_call, next_season_call, open_call};

// The season at a time.
#[unsafe(no_mangle)]
pub extern "C" fn hf_season(year: u32, month: u32, day: u32, minute: u32) -> u64
    ensures { result ≡ season_call year month day minute }
{
    calendar_calls::season(year, month, day, minute)
}

// The next change of season; 8 first for words of another number.
#[unsafe(no_mangle)]
pub extern "C" fn hf_next_season(
    year: u32,
    month: u32,
    day: u32,
    minute: u32,
    out: &mut [u32],
) -> u64
    ensures { left result out.new ≡ next_season_call year month day minute out.old }
{
    calendar_calls::next_season(year, month, day, minute, out)
}

// Whether a service is open at a minute of the day.
#[unsafe(no_mangle)]
pub extern "C" fn hf_open(first: u32, end: u32, minute: u32) -> u64
    ensures { result ≡ open_call first end minute }
{
    calendar_calls::open(first, end, minute)
}
