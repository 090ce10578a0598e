#![tactic(auto)]

// The calls of cards as `service` lends them to Rust and C callers, on numbers and slices. Each takes any
// bytes, and its answer with what it leaves in the lent slices is one equation with its definition
// (specs/Calls.antt): `read_card`, the station of a card or its first mistake as six words; `tell_card`,
// the sentence of a card's mistake or remark; `write_card`, the card of a station.
ghost use Rattle.std.specs.Prelude.{◌≡◌};
ghost use Rattle.card_calls.specs.Calls.{read_call, tell_call, write_call};

use answers::Refusal;
use card::NoStation;
use card_text::numbers::mistake_words;
use packed::{counted, refused, status};

// The station of a card: 0 with its 237 bytes, or 1 with the mistake's six words. 8 for slices of
// another length.
#[tactic(auto, unfolding(crate::specs::Calls::read_call, crate::specs::Calls::told_of))]
pub fn read_card(text: &[u8], station: &mut [u8], mistake: &mut [u32]) -> u32
    ensures { (result, (station.new, mistake.new)) ≡ read_call text.now station.old mistake.old }
{
    if mistake.len() != 6 {
        return status(Err(Refusal::Space));
    }
    match card::station(text, station) {
        Ok(()) => 0,
        Err(NoStation::Refused(r)) => status(Err(r)),
        Err(NoStation::Mistaken(m)) => {
            mistake.copy_from_slice(&mistake_words(text, m));
            status(Err(Refusal::Record))
        }
    }
}

// The sentence of a card's first mistake, or of a remark on it.
#[tactic(auto, unfolding(crate::specs::Calls::tell_call))]
pub fn tell_card(text: &[u8], out: &mut [u8]) -> u64
    ensures { (result, out.new) ≡ tell_call text.now out.old }
{
    counted(card_text::sentence(text, out).map(|n| n as u64))
}

// The card of a station's 237 bytes. 8 first for under 8,192 bytes.
#[tactic(auto, unfolding(crate::specs::Calls::write_call))]
pub fn write_card(station: &[u8], out: &mut [u8]) -> u64
    ensures { (result, out.new) ≡ write_call station.now out.old }
{
    if out.len() < 8192 {
        return refused(Refusal::Space);
    }
    counted(card_back::card_of(station, out).map(|n| n as u64))
}
