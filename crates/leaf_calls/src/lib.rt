#![tactic(auto)]

// The elementary functions as `service` lends them: by number, bits in and bits out. `by_number` takes
// any three words, and its answer is `leaf_of` (specs/Leaf.antt): document 01's sin, cos, ln, log10, powf,
// atan and sqrt are the numbers 0 to 6, and any other number answers a NaN.
ghost use Rattle.std.specs.Prelude.{◌≡◌};
ghost use Rattle.leaf_calls.specs.Leaf.{leaf, leaf_of};

use arctangent::atan;
use logarithm::{ln, log10};
use numeric::bits::{bits_of, float_of};
use power::powf;
use root::sqrt;
use sine::{cos, sin};

// The elementary function of this number, C callers' own, of x, for powf of x and y; a NaN where there
// is none.
#[tactic(auto, unfolding(crate::specs::Leaf::leaf))]
fn leaf_at(which: u32, x: f32, y: f32) -> f32
    ensures { result ≡ leaf which x y }
{
    match which {
        0 => sin(x),
        1 => cos(x),
        2 => ln(x),
        3 => log10(x),
        4 => powf(x, y),
        5 => atan(x),
        6 => sqrt(x),
        _ => f32::NAN,
    }
}

// The same over bit patterns.
#[tactic(auto, unfolding(crate::specs::Leaf::leaf_of))]
pub fn by_number(which: u32, a: u32, b: u32) -> u32
    ensures { result ≡ leaf_of which a b }
{
    bits_of(leaf_at(which, float_of(a), float_of(b)))
}
