// Why a maximum gain is refused before it is looked for.
ghost use Rattle.std.specs.Prelude.{◌≡◌, IfOk};
ghost use Rattle.answers.specs.Outcome.{number_of};
ghost use Rattle.floats.specs.Ops.{at};
ghost use Rattle.model.specs.Types.{jant_of, type_number};
ghost use Rattle.maxgain.specs.Refusals.{inputs_finite, band_ok, refusal_of};

use answers::Refusal;
use floats::range::all_finite;
use model::limits::in_band;
use model::types::{AntennaType, jant};
use numeric::float::is_finite;
use station::Station;

#[tactic(auto, unfolding(crate::specs::Refusals::inputs_finite))]
fn inputs_finite(s: Station, mhz: f32, design: f32) -> bool
    ensures { result ≡ inputs_finite s.parm s.gainmax s.gainmaxb mhz design }
{
    all_finite(&s.parm)
        & all_finite(&s.gainmax)
        & all_finite(&s.gainmaxb)
        & is_finite(mhz)
        & is_finite(design)
}

// Mode 2 alone has a band.
#[tactic(auto, unfolding(crate::specs::Refusals::band_ok))]
fn band_ok(mode: u8, mhz: f32) -> bool
    ensures { result ≡ band_ok mode mhz }
{
    mode != 2 || in_band(mhz)
}

// The antenna's type, or the first refusal of document 01's table.
#[tactic(auto, unfolding(crate::specs::Refusals::refusal_of))]
pub(crate) fn check(s: Station, mhz: f32, design: f32) -> Result<AntennaType, Refusal>
    ensures refusal { number_of result ≡ refusal_of s.mode s.parm s.gainmax s.gainmaxb mhz design }
    ensures kind { IfOk result (λ kind. type_number kind ≡ jant_of (at s.parm 1)) }
{
    if !inputs_finite(s, mhz, design) {
        return Err(Refusal::Value);
    }
    let kind = AntennaType::try_from(jant(s.parm[1]))?;
    if s.mode > 2 {
        return Err(Refusal::Mode);
    }
    if !band_ok(s.mode, mhz) {
        return Err(Refusal::Band);
    }
    Ok(kind)
}
