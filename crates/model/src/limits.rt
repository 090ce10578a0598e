// Limits that several calls share.
ghost use Rattle.std.specs.Prelude.{◌≡◌};
ghost use Rattle.model.specs.Limits.{in_band};

use floats::range::is_from_to;

#[tactic(auto, unfolding(crate::specs::Limits::in_band))]
pub fn in_band(mhz: f32) -> bool
    ensures { result ≡ in_band mhz }
{
    is_from_to(mhz, 1.0, 31.0)
}
