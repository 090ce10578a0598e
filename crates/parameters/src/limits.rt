// The limits of set-up's parameters, and the refusals that need no search.
ghost use Rattle.std.specs.Prelude.{◌≡◌, ◌&&◌, leb, IfOk};
ghost use Rattle.std.specs.Float.Ieee.{to_unsigned};
ghost use Rattle.answers.specs.Outcome.{number_of};
ghost use Rattle.model.specs.Limits.{slot};
ghost use Rattle.model.specs.Types.{jant_of, type_number};
ghost use Rattle.parameters.specs.Limits.{design_ok, band_ok, slots_ok, start_of, start_ok, slew_ok, aim_ok, refusal_of};

use answers::Refusal;
use floats::range::{all_finite, is_between};
use model::counts::count_ok;
use model::limits::in_band;
use model::table::SIZE;
use model::types::{AntennaType, jant};
use numeric::float::to_usize;
use search::record::Peak;

// Design MHz, where the type has one.
#[tactic(auto, unfolding(crate::specs::Limits::design_ok, model::specs::Types::array_type, model::specs::Types::log_periodic))]
fn design_ok(kind: AntennaType, p: [f32; 20]) -> bool
    ensures { result ≡ design_ok (type_number kind) p }
{
    match kind {
        AntennaType::Multiband
        | AntennaType::CentreFed
        | AntennaType::EndFed
        | AntennaType::Tropical => in_band(p[7]),
        AntennaType::Quadrant | AntennaType::CrossedDipoles => in_band(p[5]),
        AntennaType::HorizontalLogPeriodic
        | AntennaType::VerticalLogPeriodic
        | AntennaType::Rhombic => true,
    }
}

// Operating and design MHz.
#[tactic(auto, unfolding(crate::specs::Limits::band_ok))]
fn band_ok(kind: AntennaType, p: [f32; 20]) -> bool
    ensures { result ≡ band_ok (type_number kind) p }
{
    in_band(p[4]) & design_ok(kind, p)
}

// Log-periodic elements, by a float that truncates to 2..30. Inner step: of the slots that break this too.
pub fn elements_ok(x: f32) -> bool
    ensures { result ≡ (leb 2 (to_unsigned 64 x) && leb (to_unsigned 64 x) 30) }
{
    let nel = to_usize(x);
    (2 <= nel) & (nel <= 30)
}

// Dipoles, or log-periodic elements.
#[tactic(auto, unfolding(crate::specs::Limits::slots_ok, model::specs::Types::array_type, model::specs::Types::log_periodic))]
fn slots_ok(kind: AntennaType, p: [f32; 20]) -> bool
    ensures { result ≡ slots_ok (type_number kind) p }
{
    match kind {
        AntennaType::HorizontalLogPeriodic | AntennaType::VerticalLogPeriodic => elements_ok(p[5]),
        AntennaType::Multiband
        | AntennaType::CentreFed
        | AntennaType::EndFed
        | AntennaType::Tropical => count_ok(p[5]) & count_ok(p[6]),
        AntennaType::Rhombic | AntennaType::Quadrant | AntennaType::CrossedDipoles => true,
    }
}

// The search's start values; only type 1 sets z6. Inner step: of set-up.
#[tactic(auto, unfolding(crate::specs::Limits::start_of))]
pub fn start_of(kind: AntennaType, p: [f32; 20]) -> Peak
    ensures { result ≡ start_of (type_number kind) p }
{
    match kind {
        AntennaType::Multiband => Peak {
            z6: p[16],
            umax: p[13],
            vmax: p[14],
        },
        AntennaType::CentreFed | AntennaType::EndFed => Peak {
            z6: 0.0,
            umax: p[11],
            vmax: p[12],
        },
        AntennaType::Tropical | AntennaType::Quadrant | AntennaType::CrossedDipoles => Peak {
            z6: 0.0,
            umax: p[10],
            vmax: p[11],
        },
        AntennaType::HorizontalLogPeriodic
        | AntennaType::VerticalLogPeriodic
        | AntennaType::Rhombic => Peak {
            z6: 0.0,
            umax: 0.0,
            vmax: 0.0,
        },
    }
}

#[tactic(auto, unfolding(crate::specs::Limits::start_ok))]
fn start_ok(s: Peak) -> bool
    ensures { result ≡ start_ok s }
{
    is_between(s.umax, 0.0, 90.0) & is_between(s.vmax, 0.0, 360.0)
}

#[tactic(auto, unfolding(crate::specs::Limits::slew_ok, model::specs::Types::array_type, model::specs::Types::log_periodic))]
fn slew_ok(kind: AntennaType, p: [f32; 20]) -> bool
    ensures { result ≡ slew_ok (type_number kind) p }
{
    if kind.is_array() {
        return is_between(p[9], -90.0, 90.0);
    }
    true
}

// Start direction and slew.
#[tactic(auto, unfolding(crate::specs::Limits::aim_ok))]
fn aim_ok(kind: AntennaType, p: [f32; 20]) -> bool
    ensures { result ≡ aim_ok (type_number kind) p }
{
    start_ok(start_of(kind, p)) & slew_ok(kind, p)
}

// The type of what no limit is broken by, or the first refusal that needs no search, with n floats lent
// for the table. Inner step: of set-up.
#[tactic(auto, unfolding(crate::specs::Limits::refusal_of))]
pub fn check(p: [f32; 20], n: usize) -> Result<AntennaType, Refusal>
    ensures refusal { number_of result ≡ refusal_of (jant_of (slot p 1)) p n }
    ensures kind { IfOk result (λ kind. type_number kind ≡ jant_of (slot p 1)) }
{
    if !all_finite(&p) {
        return Err(Refusal::Value);
    }
    let kind = AntennaType::try_from(jant(p[1]))?;
    if !band_ok(kind, p) {
        return Err(Refusal::Band);
    }
    if !slots_ok(kind, p) {
        return Err(Refusal::Count);
    }
    if !aim_ok(kind, p) {
        return Err(Refusal::Aim);
    }
    if n < SIZE {
        return Err(Refusal::Space);
    }
    Ok(kind)
}
