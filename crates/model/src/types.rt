// The types of antenna, and the families that share their constants.
ghost use Rattle.std.specs.Prelude.{◌≡◌};
ghost use Rattle.model.specs.Types.{jant_of, type_ok, type_number, Numbered, array_type, log_periodic};

use answers::Refusal;
use floats::rounding::nint;

// The nine types, by their numbers in slot 1. The first four are arrays of dipoles.
#[derive(Clone, Copy, Debug, PartialEq, Eq)]
pub enum AntennaType {
    Multiband = 1,
    CentreFed,
    EndFed,
    Tropical,
    HorizontalLogPeriodic,
    VerticalLogPeriodic,
    Rhombic,
    Quadrant,
    CrossedDipoles,
}

impl From<AntennaType> for u32 {
    ghost from_gives = { λ kind n. n ≡ type_number kind };

    fn from(kind: AntennaType) -> u32 {
        kind as u32
    }
}

// A number that is no type's is refused.
impl TryFrom<u32> for AntennaType {
    type Error = Refusal;

    ghost try_from_gives = { Numbered };

    #[tactic(auto, unfolding(crate::specs::Types::type_ok))]
    fn try_from(iant: u32) -> Result<AntennaType, Refusal> {
        match iant {
            1 => Ok(AntennaType::Multiband),
            2 => Ok(AntennaType::CentreFed),
            3 => Ok(AntennaType::EndFed),
            4 => Ok(AntennaType::Tropical),
            5 => Ok(AntennaType::HorizontalLogPeriodic),
            6 => Ok(AntennaType::VerticalLogPeriodic),
            7 => Ok(AntennaType::Rhombic),
            8 => Ok(AntennaType::Quadrant),
            9 => Ok(AntennaType::CrossedDipoles),
            _ => Err(Refusal::Type),
        }
    }
}

impl AntennaType {
    // Types 1 to 4.
    #[tactic(auto, unfolding(crate::specs::Types::array_type))]
    pub fn is_array(self) -> bool
        ensures { result ≡ array_type (type_number self) }
    {
        matches!(
            self,
            AntennaType::Multiband
                | AntennaType::CentreFed
                | AntennaType::EndFed
                | AntennaType::Tropical
        )
    }

    // Types 5 and 6.
    #[tactic(auto, unfolding(crate::specs::Types::log_periodic))]
    pub fn is_log_periodic(self) -> bool
        ensures { result ≡ log_periodic (type_number self) }
    {
        matches!(
            self,
            AntennaType::HorizontalLogPeriodic | AntennaType::VerticalLogPeriodic
        )
    }
}

// `jant`: the antenna's type by its slot, 0 for a number below 0.
#[tactic(auto, unfolding(crate::specs::Types::jant_of))]
pub fn jant(slot: f32) -> u32
    ensures { result ≡ jant_of slot }
{
    nint(slot).max(0) as u32
}

#[tactic(auto, unfolding(crate::specs::Types::type_ok))]
pub fn type_ok(iant: u32) -> bool
    ensures { result ≡ type_ok iant }
{
    matches!(iant, 1..=9)
}
