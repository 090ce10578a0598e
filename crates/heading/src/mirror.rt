// Where half of a plate is the other half's mirror image.
ghost use Rattle.std.specs.Prelude.{◌≡◌};
ghost use Rattle.std.specs.Float.Ieee.{to_signed};
ghost use Rattle.heading.specs.Mirrored.{is_zero, mirrored_of};

use model::types::AntennaType;
use numeric::float::to_i32;

// Whether a slew truncates to 0.
#[tactic(auto, unfolding(crate::specs::Mirrored::is_zero))]
fn is_unslewed(slew: f32) -> bool
    ensures { result ≡ is_zero (to_signed 31 slew) }
{
    let n = to_i32(slew);
    (0 <= n) & (n <= 0)
}

// Types 1 to 4 without slew, and types 5 and 6.
#[tactic(auto, using(std::proofs::lemmas::Bool::Decides::nat_tests), unfolding(crate::specs::Mirrored::mirrored_of, model::specs::Types::type_ok))]
pub(crate) fn is_mirrored(iant: u32, slew: f32) -> bool
    ensures { result ≡ mirrored_of iant slew }
{
    match AntennaType::try_from(iant) {
        Ok(
            AntennaType::Multiband
            | AntennaType::CentreFed
            | AntennaType::EndFed
            | AntennaType::Tropical,
        ) => is_unslewed(slew),
        Ok(AntennaType::HorizontalLogPeriodic | AntennaType::VerticalLogPeriodic) => true,
        Ok(AntennaType::Rhombic | AntennaType::Quadrant | AntennaType::CrossedDipoles) => false,
        Err(_) => false,
    }
}
