// Floats cut to whole numbers, by Rust's `as i32`.
ghost use Rattle.std.specs.Prelude.{◌≡◌};
ghost use Rattle.std.specs.Float.Ieee.{to_signed};
ghost use Rattle.parameters.specs.Whole.{whole_of, non_zero};

// x as i32 as f32. Inner step: of the constants, and of a row's elevation.
#[tactic(auto, using(floats::proofs::WholeNumbers::back))]
pub fn truncated(x: f32) -> f32
    ensures { result ≡ whole_of x }
{
    numeric::float::of_i32(numeric::float::to_i32(x))
}

// Whether x as i32 is not 0. Inner step: of the slew.
#[tactic(auto, using(floats::proofs::WholeNumbers::back), unfolding(crate::specs::Whole::non_zero))]
pub fn not_zero(x: f32) -> bool
    ensures { result ≡ non_zero (to_signed 31 x) }
{
    numeric::float::to_i32(x) != 0
}
