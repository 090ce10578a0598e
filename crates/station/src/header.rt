// The header before a record's words: 2 bits of the edition, 2 of the mode and, in edition 1, 4 of the type.
ghost use Rattle.std.specs.Prelude.{false, ◌≡◌, ◌≤◌};
ghost use Rattle.station.specs.Header.{width_of, type_of, header_of, type_agrees, typeless};

use model::types::{jant, type_ok};

// How many bits it has.
#[tactic(auto, unfolding(crate::specs::Header::width_of, crate::specs::Header::type_bits))]
pub fn width_of(edition: u32) -> u32
    ensures { result ≡ width_of edition }
{
    if edition == 0 { 4 } else { 8 }
}

// A station's type, by its mode and slot 1.
#[tactic(auto, unfolding(crate::specs::Header::type_of))]
fn type_of(mode: u8, slot1: f32) -> u32
    ensures { result ≡ type_of mode slot1 }
{
    if mode <= 2 { jant(slot1) } else { 10 }
}

// Whether edition 1's field is the type of a station in this mode with this slot 1.
#[tactic(auto, unfolding(crate::specs::Header::type_agrees))]
pub fn type_agrees(field: u32, mode: u8, slot1: f32) -> bool
    ensures { result ≡ type_agrees 1 field mode slot1 }
{
    if mode <= 2 {
        type_ok(field) & (field == jant(slot1))
    } else {
        field == 10
    }
}

// Whether the edition has no form of such a station.
#[tactic(auto, unfolding(crate::specs::Header::typeless))]
pub fn typeless(edition: u32, mode: u8, slot1: f32) -> bool
    ensures { result ≡ typeless edition mode slot1 }
{
    (edition == 1) & (mode <= 2) & !type_ok(jant(slot1))
}

// The header of such a station.
pub fn header_of(edition: u32, mode: u8, slot1: f32) -> u32
    requires { (edition ≤ 1) × (mode ≤ 3) × (typeless edition mode slot1 ≡ false) }
    ensures { result ≡ header_of edition mode slot1 }
{
    if edition == 0 {
        return mode as u32;
    }
    (edition * 4 + mode as u32) * 16 + type_of(mode, slot1)
}
