// Fortran's roundings.
ghost use Rattle.std.specs.Prelude.{◌≡◌, ◌≤◌};
ghost use Rattle.std.specs.Float.Ieee.{to_signed};
ghost use Rattle.floats.specs.Rounding.{nint_of, ifix_of, turns_of, natural};

// `NINT`: halves go away from 0.
#[tactic(auto, unfolding(crate::specs::Rounding::nint_of))]
pub fn nint(v: f32) -> i32
    ensures { result ≡ nint_of v }
{
    if v >= 0.0 {
        return numeric::float::to_i32(v + 0.5);
    }
    numeric::float::to_i32(v - 0.5)
}

// `IFIX`, brought into the whole degrees 0 to 90.
#[tactic(auto, unfolding(crate::specs::Rounding::ifix_of))]
pub fn ifix(v: f32) -> usize
    ensures value { result ≡ ifix_of v }
    ensures upper_bound { result ≤ 90 }
{
    numeric::float::to_i32(v).clamp(0, 90) as usize
}

// How many numbers there are in 0..=count.
#[tactic(auto, unfolding(crate::specs::Rounding::turns_of))]
pub fn turns(count: i32) -> u32
    ensures { result ≡ turns_of count }
{
    if count < 0 {
        return 0;
    }
    count as u32 + 1
}

// The whole part, 0 for a number below 0.
pub fn natural(v: f32) -> u32
    ensures { result ≡ natural (to_signed 31 v) }
{
    numeric::float::to_i32(v).max(0) as u32
}
