#![tactic(auto)]

// What stands beside a plate: from the 237 bytes that `plate` reads to the antenna, its MHz, the
// elevation, and whether half of the plate is the other half's mirror image; or the first refusal, for
// any bytes. The answer is `heading_of` (specs/Heading.antt). Set-up isn't asked: its refusals are the
// plate's own (crate `shown`).
mod mirror;

ghost use Rattle.std.specs.Prelude.{◌≡◌, length};
ghost use Rattle.answers.specs.Outcome.{outcome};
ghost use Rattle.heading.specs.Heading.{headed, set_heading, station_heading, read_heading, heading_of};

use answers::Refusal;
use floats::rounding::natural;
use hundredths::rounding::{in_span, raised};
use maxgain::setmaxgain;
use mirror::is_mirrored;
use model::types::jant;
use request::station_of;
use station::Station;
use words::big_endian::float_at;

// The type, 1 to 9, or 0 for the curtain; MHz in raised hundredths (crate `hundredths`); the elevation
// in degrees; whether the gains beyond 180 degrees are those before it, mirrored.
#[derive(Clone, Copy, Debug, PartialEq, Eq)]
pub struct Heading {
    pub antenna: u32,
    pub mhz: u32,
    pub elevation: u32,
    pub mirrored: bool,
}

// The heading, or the refusal of MHz over 1,000.
#[tactic(auto, unfolding(crate::specs::Heading::headed, crate::specs::Heading::degrees_of))]
fn tell_spanned(antenna: u32, mhz: f32, elevation: f32, mirrored: bool) -> Result<Heading, Refusal>
    ensures { outcome result ≡ headed antenna mhz elevation mirrored }
{
    if !in_span(mhz) {
        return Err(Refusal::Span);
    }
    Ok(Heading {
        antenna,
        mhz: raised(mhz),
        elevation: natural(elevation),
        mirrored,
    })
}

// Of the parameters as set-up gets them.
#[tactic(auto, unfolding(crate::specs::Heading::set_heading))]
fn tell_set(parm: [f32; 20], elevation: f32) -> Result<Heading, Refusal>
    ensures { outcome result ≡ set_heading parm elevation }
{
    let iant = jant(parm[1]);
    tell_spanned(iant, parm[4], elevation, is_mirrored(iant, parm[9]))
}

// Of a station: `setmaxgain`, then the parameters that it leaves.
#[tactic(auto, unfolding(crate::specs::Heading::station_heading, request::specs::Request::and_then))]
fn tell_station(s: Station, mhz: f32, design: f32, elevation: f32) -> Result<Heading, Refusal>
    ensures { outcome result ≡ station_heading s mhz design elevation }
{
    let found = setmaxgain(s, mhz, design)?;
    tell_set(found.parm, elevation)
}

// Of the record that was read.
#[tactic(auto, unfolding(crate::specs::Heading::read_heading))]
fn tell_read(input: &[u8], s: Station) -> Result<Heading, Refusal>
    requires { length input.now ≡ 237 }
    ensures { outcome result ≡ read_heading input.now s }
{
    let mhz = float_at(input, 225);
    let design = float_at(input, 229);
    let elevation = float_at(input, 233);
    if s.mode != 3 {
        return tell_station(s, mhz, design, elevation);
    }
    tell_spanned(0, s.parm[4], elevation, false)
}

// What stands beside the plate that these bytes ask for.
#[tactic(auto, unfolding(crate::specs::Heading::heading_of, request::specs::Request::and_then))]
pub fn tell(input: &[u8]) -> Result<Heading, Refusal>
    ensures { outcome result ≡ heading_of input.now }
{
    let station = station_of(input)?;
    tell_read(input, station)
}
