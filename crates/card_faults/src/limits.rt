// What is said of a number that breaks a limit.
ghost use Rattle.std.specs.Prelude.{◌≡◌};
ghost use Rattle.answers.specs.Outcome.{number};
ghost use Rattle.card_faults.specs.Limits.{lowest, under, is_over, over, broken, refused_text};

use answers::Refusal;
use fields::names::{DESIGN, DIPOLES, ELEMENTS, MHZ, SLEW, START, TYPE};

#[tactic(auto, unfolding(crate::specs::Limits::lowest))]
fn lowest(f: usize) -> f32
    ensures { result ≡ lowest f }
{
    match f {
        MHZ | DESIGN => 1.0,
        ELEMENTS => 2.0,
        SLEW => -90.0,
        _ => 0.0,
    }
}

#[tactic(auto, unfolding(crate::specs::Limits::under, quoted::specs::Quoted::quoted))]
fn under(f: usize) -> &'static [u8]
    ensures { result.now ≡ under f }
{
    match f {
        MHZ | DESIGN => b" is under 1",
        ELEMENTS => b" is under 2",
        SLEW => b" is under -90",
        _ => b" is under 0",
    }
}

// A start's second number is an azimuth.
#[tactic(auto, unfolding(crate::specs::Limits::is_over))]
fn is_over(f: usize, number: usize, x: f32) -> bool
    ensures { result ≡ is_over f number x }
{
    match f {
        MHZ | DESIGN | ELEMENTS => 31.0 <= x,
        DIPOLES => 64.0 < x,
        START if number == 2 => 360.0 < x,
        _ => 90.0 < x,
    }
}

#[tactic(auto, unfolding(crate::specs::Limits::over, quoted::specs::Quoted::quoted))]
fn over(f: usize, number: usize) -> &'static [u8]
    ensures { result.now ≡ over f number }
{
    match f {
        MHZ | DESIGN | ELEMENTS => b" is not below 31",
        DIPOLES => b" is over 64",
        START if number == 2 => b" is over 360",
        _ => b" is over 90",
    }
}

// What is wrong with a number that a field doesn't take as its first, second ..
#[tactic(auto, unfolding(crate::specs::Limits::broken, quoted::specs::Quoted::quoted))]
pub(crate) fn broken(f: usize, number: usize, x: f32) -> &'static [u8]
    ensures { result.now ≡ broken f number x }
{
    if f == TYPE {
        b" is not a type, 1 to 9 or curtain"
    } else if x < lowest(f) {
        under(f)
    } else if is_over(f, number, x) {
        over(f, number)
    } else {
        b" is not a whole number"
    }
}

// A refusal's number and name.
#[tactic(auto, unfolding(crate::specs::Limits::refused_text, quoted::specs::Quoted::quoted))]
pub(crate) fn refused_text(r: Refusal) -> &'static [u8]
    ensures { result.now ≡ refused_text (number r) }
{
    match r {
        Refusal::Type => b" (refused 3, type)",
        Refusal::Band => b" (refused 5, band)",
        Refusal::Count => b" (refused 6, count)",
        _ => b" (refused 7, aim)",
    }
}
