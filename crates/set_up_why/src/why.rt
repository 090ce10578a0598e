// Which slot a refusal of set-up is about.
ghost use Rattle.std.specs.Prelude.{◌≡◌};
ghost use Rattle.answers.specs.Outcome.{number};
ghost use Rattle.slots.specs.Told.{told_of};
ghost use Rattle.model.specs.Types.{array_type, log_periodic, crossed_type};
ghost use Rattle.set_up_why.specs.Why.{mhz_slot, elements_slot, dipoles_slot, slew_slot, elevation_slot, azimuth_slot, count_broken, aim_broken, broken, why_of};

use answers::Refusal;
use floats::range::is_between;
use model::counts::count_ok;
use model::limits::in_band;
use model::types::{jant, type_ok};
use numeric::float::is_finite;
use parameters::limits::elements_ok;
use slots::{Broken, lowest_broken};

// Flags of any type's number, joined without a branch: `why` asks for them at each limit and slot.
#[tactic(auto, unfolding(model::specs::Types::array_type))]
fn array_type(iant: u32) -> bool
    ensures { result ≡ array_type iant }
{
    iant <= 4
}

#[tactic(auto, unfolding(model::specs::Types::log_periodic))]
fn log_periodic(iant: u32) -> bool
    ensures { result ≡ log_periodic iant }
{
    (iant == 5) | (iant == 6)
}

#[tactic(auto, unfolding(model::specs::Types::crossed_type))]
fn crossed_type(iant: u32) -> bool
    ensures { result ≡ crossed_type iant }
{
    (iant == 8) | (iant == 9)
}

// Operating or design MHz.
#[tactic(auto, unfolding(crate::specs::Why::mhz_slot))]
fn mhz_slot(iant: u32, s: usize) -> bool
    ensures { result ≡ mhz_slot iant s }
{
    (s == 4) | (array_type(iant) & (s == 7)) | (crossed_type(iant) & (s == 5))
}

#[tactic(auto, unfolding(crate::specs::Why::elements_slot))]
fn elements_slot(iant: u32, s: usize) -> bool
    ensures { result ≡ elements_slot iant s }
{
    log_periodic(iant) & (s == 5)
}

#[tactic(auto, unfolding(crate::specs::Why::dipoles_slot))]
fn dipoles_slot(iant: u32, s: usize) -> bool
    ensures { result ≡ dipoles_slot iant s }
{
    array_type(iant) & ((s == 5) | (s == 6))
}

#[tactic(auto, unfolding(crate::specs::Why::slew_slot))]
fn slew_slot(iant: u32, s: usize) -> bool
    ensures { result ≡ slew_slot iant s }
{
    array_type(iant) & (s == 9)
}

// The start elevation.
#[tactic(auto, unfolding(crate::specs::Why::elevation_slot))]
fn elevation_slot(iant: u32, s: usize) -> bool
    ensures { result ≡ elevation_slot iant s }
{
    ((iant == 1) & (s == 13))
        | (((iant == 2) | (iant == 3)) & (s == 11))
        | (((iant == 4) | crossed_type(iant)) & (s == 10))
}

// The start azimuth: the next slot, but by the list that its definition has.
#[tactic(auto, unfolding(crate::specs::Why::azimuth_slot))]
fn azimuth_slot(iant: u32, s: usize) -> bool
    ensures { result ≡ azimuth_slot iant s }
{
    ((iant == 1) & (s == 14))
        | (((iant == 2) | (iant == 3)) & (s == 12))
        | (((iant == 4) | crossed_type(iant)) & (s == 11))
}

#[tactic(auto, unfolding(crate::specs::Why::count_broken, crate::specs::Why::elements_ok))]
fn count_broken(iant: u32, s: usize, x: f32) -> bool
    ensures { result ≡ count_broken iant s x }
{
    (elements_slot(iant, s) & !elements_ok(x)) | (dipoles_slot(iant, s) & !count_ok(x))
}

#[tactic(auto, unfolding(crate::specs::Why::aim_broken))]
fn aim_broken(iant: u32, s: usize, x: f32) -> bool
    ensures { result ≡ aim_broken iant s x }
{
    (slew_slot(iant, s) & !is_between(x, -90.0, 90.0))
        | (elevation_slot(iant, s) & !is_between(x, 0.0, 90.0))
        | (azimuth_slot(iant, s) & !is_between(x, 0.0, 360.0))
}

// Whether the number x in slot s breaks a limit.
#[tactic(auto, unfolding(crate::specs::Why::broken))]
fn is_broken(iant: u32, limit: Refusal, s: usize, x: f32) -> bool
    ensures { result ≡ broken iant (number limit) s x }
{
    match limit {
        Refusal::Value => !is_finite(x),
        Refusal::Type => (s == 1) & !type_ok(iant),
        Refusal::Band => mhz_slot(iant, s) & !in_band(x),
        Refusal::Count => count_broken(iant, s, x),
        Refusal::Aim => aim_broken(iant, s, x),
        _ => false,
    }
}

// The lowest number that set-up refuses p under for a slot's sake, and the lowest slot that breaks it.
#[tactic(auto, unfolding(crate::specs::Why::why_of, crate::specs::Why::breaks))]
pub fn why(p: [f32; 20]) -> Option<Broken>
    ensures { told_of result ≡ why_of p }
{
    let iant = jant(p[1]);
    lowest_broken(|limit, s| is_broken(iant, limit, s, p[s]))
}
