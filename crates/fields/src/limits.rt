// What numbers a field takes.
ghost use Rattle.std.specs.Prelude.{◌≡◌};
ghost use Rattle.fields.specs.Limits.{type_number, start_highest, is_whole, reads_design, takes, refusal_of};

use crate::Kind;
use crate::first::least;
use crate::names::{DESIGN, DIPOLES, ELEMENTS, ELEVATION, MHZ, SLEW, START, TYPE};
use answers::Refusal;
use floats::range::{is_between, is_from_to};
use model::counts::count_ok;
use model::limits::in_band;
use numeric::float::{of_i32, to_i32};

// Which of 1 to 9 a number is, 0 where it is none of them.
pub fn type_number(x: f32) -> usize
    ensures { result ≡ type_number x }
{
    least(9, |n| x == n as f32)
}

#[tactic(auto, unfolding(crate::specs::Limits::start_highest))]
fn start_highest(number: usize) -> f32
    ensures { result ≡ start_highest number }
{
    if number == 1 { 90.0 } else { 360.0 }
}

#[tactic(auto, using(floats::proofs::WholeNumbers::back), unfolding(crate::specs::Limits::is_whole))]
fn is_whole(x: f32) -> bool
    ensures { result ≡ is_whole x }
{
    x == of_i32(to_i32(x))
}

// Whether set-up reads the design MHz.
#[tactic(auto, unfolding(crate::specs::Limits::reads_design))]
fn reads_design(kind: Kind) -> bool
    ensures { result ≡ reads_design kind }
{
    (kind.mode != 1) | (kind.iant == 9)
}

// Whether the field takes this number as its first, second ..
#[tactic(auto, unfolding(crate::specs::Limits::takes))]
pub fn takes(kind: Kind, f: usize, number: usize, x: f32) -> bool
    ensures { result ≡ takes kind f number x }
{
    match f {
        TYPE => type_number(x) != 0,
        DIPOLES => count_ok(x),
        SLEW => is_between(x, -90.0, 90.0),
        START => is_between(x, 0.0, start_highest(number)),
        ELEMENTS => is_from_to(x, 2.0, 31.0),
        MHZ => (kind.mode == 1) | in_band(x),
        DESIGN => !reads_design(kind) | in_band(x),
        ELEVATION => is_between(x, 0.0, 90.0) & is_whole(x),
        _ => true,
    }
}

// The refusal that a number breaks which the field doesn't take.
#[tactic(auto, unfolding(crate::specs::Limits::refusal_of))]
pub fn refusal_of(f: usize) -> Refusal
    ensures { result ≡ refusal_of f }
{
    match f {
        TYPE => Refusal::Type,
        MHZ | DESIGN => Refusal::Band,
        DIPOLES | ELEMENTS => Refusal::Count,
        _ => Refusal::Aim,
    }
}
