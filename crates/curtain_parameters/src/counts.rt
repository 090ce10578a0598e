// The whole numbers among the parameters: stacks, bays, mode.
ghost use Rattle.std.specs.Prelude.{◌≡◌, ◌≤◌, min, nat_abs};
ghost use Rattle.floats.specs.Rounding.{nint_of};
ghost use Rattle.curtain_parameters.specs.Pattrn0 as Pattrn0;

use floats::rounding::nint;
use model::types::jant;

// v rounded and brought into low .. high; `jant` rounds, and takes what is below 0 to 0.
#[tactic(auto, unfolding(model::specs::Types::jant_of))]
pub(crate) fn clamp(v: f32, low: usize, high: usize) -> usize
    requires { low ≤ high }
    ensures { result ≡ Pattrn0.clamped low high (nint_of v) }
{
    (jant(v) as usize).clamp(low, high)
}

// How many bays v stands for: the size of the rounded number, at most 14.
pub(crate) fn bays(v: f32) -> usize
    ensures { result ≡ min (nat_abs (nint_of v)) 14 }
{
    nint(v).unsigned_abs().min(14) as usize
}
