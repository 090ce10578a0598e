// Ranges of floats.
ghost use Rattle.std.specs.Prelude.{◌≡◌};
ghost use Rattle.floats.specs.Ranges.{between, from_to, all_finite};

// low <= x <= high.
#[tactic(auto, unfolding(crate::specs::Ranges::between))]
pub fn is_between(x: f32, low: f32, high: f32) -> bool
    ensures { result ≡ between x low high }
{
    low <= x && x <= high
}

// low <= x < high.
#[tactic(auto, unfolding(crate::specs::Ranges::from_to))]
pub fn is_from_to(x: f32, low: f32, high: f32) -> bool
    ensures { result ≡ from_to x low high }
{
    low <= x && x < high
}

// Whether every float of s is finite.
pub fn all_finite(s: &[f32]) -> bool
    ensures { result ≡ all_finite s.now }
{
    // every float is looked at, so that the compiler takes several in a turn
    s.iter()
        .fold(true, |ok, x| ok & numeric::float::is_finite(*x))
}
