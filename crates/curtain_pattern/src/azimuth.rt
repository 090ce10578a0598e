// The azimuth, taken from behind the curtain to the front. Inner steps: of the level.
ghost use Rattle.std.specs.Prelude.{◌≡◌};
ghost use Rattle.curtain_pattern.specs.Azimuth as Azimuth;

use crate::constants::{PI, PIO2};

// The source's `iaz`: whether an azimuth in radians lies behind.
#[tactic(auto, unfolding(crate::specs::Azimuth::iaz))]
pub fn behind(azim: f32) -> bool
    ensures { result ≡ Azimuth.iaz azim }
{
    let size = azim.abs();
    size > PIO2 && size < 3.0 * PIO2
}

#[tactic(auto, unfolding(crate::specs::Azimuth::folded))]
pub fn fold(azim: f32) -> f32
    ensures { result ≡ Azimuth.folded azim }
{
    if behind(azim) {
        return azim - numeric::float::copysign(PI, azim);
    }
    azim
}
