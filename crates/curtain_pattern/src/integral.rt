// The pattern integrated over the forward hemisphere: the source's `dbltrap`.
ghost use Rattle.std.specs.Prelude.{◌≡◌};
ghost use Rattle.curtain_pattern.specs.Integral as Integral;
ghost use Rattle.curtain_pattern.specs.Pattern as Pattern;

use crate::constants::D2R;
use crate::pattern::{Curtain, elevation_at, f2, f2_at};

// A number, and how many readings of the pattern it took.
#[derive(Clone, Copy)]
pub struct Read {
    pub value: f32,
    pub readings: u32,
}

// The readings between the ends of a sweep of the azimuth.
const BETWEEN: u32 = 179;

// Those at the elevation t.
#[tactic(auto, using(crate::proofs::ReadingCount::read_is, crate::proofs::ReadingCount::inner_readings), unfolding(crate::specs::Integral::p_after, crate::specs::Integral::readings))]
fn readings(ant: Curtain, t: f32) -> Read
    requires { Pattern.Counted ant }
    ensures { result ≡ Integral.readings ant t 179 }
{
    let e = elevation_at(ant, t);
    let mut p = -90.0 * D2R + D2R;
    let mut pint: f32 = 0.0;
    let mut readings: u32 = 0;
    for k in 0..BETWEEN {
        pint += f2_at(ant, e, p);
        readings += 1;
        p += D2R;
    }
    Read {
        value: pint,
        readings,
    }
}

// A sweep of the azimuth: the readings, and half of each end.
#[tactic(auto, using(crate::proofs::ReadingCount::inner_readings))]
fn sweep(ant: Curtain, t: f32) -> Read
    requires { Pattern.Counted ant }
    ensures { result ≡ Integral.pint ant t }
{
    let ends = f2(ant, t, 90.0 * D2R) + f2(ant, t, -90.0 * D2R);
    let inner = readings(ant, t);
    Read {
        value: inner.value * D2R + (D2R / 2.0) * ends,
        readings: inner.readings + 2,
    }
}

// What the elevation t adds: half of it at the two ends.
#[tactic(auto, unfolding(crate::specs::Integral::strip, crate::specs::Integral::through))]
fn strip(ant: Curtain, t: f32, end: bool) -> Read
    requires { Pattern.Counted ant }
    ensures { result ≡ Integral.strip ant t end }
{
    let pint = sweep(ant, t);
    let x = D2R * pint.value * sine::cos(t);
    Read {
        value: if end { x / 2.0 } else { x },
        readings: pint.readings,
    }
}

// Trapezoids over 91 elevations.
// Inner step: the counts that it asks for are those of every `curtain_of`.
pub fn dbltrap(ant: Curtain) -> Read
    requires { Pattern.Counted ant }
    ensures { result ≡ Integral.dbltrap ant }
{
    let mut tint: f32 = 0.0;
    let mut readings: u32 = 0;
    let mut t: f32 = 0.0;
    for ip in 0..91u32 {
        let s = strip(ant, t, (ip == 0) | (ip == 90));
        tint += s.value;
        readings += s.readings;
        t += D2R;
    }
    Read {
        value: tint,
        readings,
    }
}
