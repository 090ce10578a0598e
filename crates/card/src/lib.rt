#![tactic(auto)]

// The reader of a station card, a text of named fields, one a line (crate `fields` has their names and
// their table). `read` takes any bytes and answers the station or the first mistake, with its line
// and its field: `read_of` (specs/Reading.antt), over what the lines' words are (specs/Card.antt), the
// card's kind (specs/Kind.antt), the order of the mistakes (specs/Mistakes.antt) and the places of the
// numbers (specs/Places.antt). `station` writes the 237 bytes that `plate` takes (`written_of`).
//
// Proved of the definitions:
//
// - a card is accepted just where it is a good one, in the sentences of specs/Good.antt
//   (`accepted-good`, `good-read`, proofs/Laws.antt);
// - each number of an accepted card is one that its field takes, and stands in its place
//   (`accepted-number`); its type is 1 to 9, in slot 1, or it is the curtain (`accepted-type`);
// - the same lines in another order read to the same station (`order_free`, proofs/Order.antt).
mod bytes;
mod checks;
pub mod kind;
pub mod line;
pub mod mistakes;
mod places;

ghost use Rattle.std.specs.Prelude.{◌≡◌};
ghost use Rattle.card.specs.Card as Card;
ghost use Rattle.card.specs.Reading as Spec;

use crate::bytes::put_bytes;
use crate::checks::card_mistake;
use crate::kind::kind_in;
use crate::mistakes::Mistake;
use crate::places::{placed, station_in};
use answers::Refusal;
use fields::Kind;
use station::Station;

// A card's station, with the three numbers after its record.
#[derive(Clone, Copy, Debug, PartialEq)]
pub struct Reading {
    pub station: Station,
    pub mhz: f32,
    pub design: f32,
    pub elevation: f32,
}

// Why no station is written.
#[derive(Clone, Copy, Debug, PartialEq, Eq)]
pub enum NoStation {
    Mistaken(Mistake),
    Refused(Refusal),
}

impl From<Mistake> for NoStation {
    ghost from_gives = { λ m e. e ≡ Spec.mistaken m };

    fn from(m: Mistake) -> NoStation {
        NoStation::Mistaken(m)
    }
}

#[tactic(auto, unfolding(crate::specs::Reading::accepted))]
fn accepted(text: &[u8], kind: Kind) -> Reading
    ensures { result ≡ Spec.accepted kind (Card.card_of text.now) }
{
    Reading {
        station: station_in(text, kind),
        mhz: placed(text, kind, 56),
        design: placed(text, kind, 57),
        elevation: placed(text, kind, 58),
    }
}

// The station that a card says, or its first mistake.
#[tactic(auto, unfolding(crate::specs::Reading::read_of, crate::specs::Reading::read_card))]
pub fn read(text: &[u8]) -> Result<Reading, Mistake>
    ensures { result ≡ Spec.read_of text.now }
{
    let kind = kind_in(text);
    match card_mistake(text, kind) {
        Some(m) => Err(m),
        None => Ok(accepted(text, kind)),
    }
}

// Writes the 237 bytes of the station that a card says over the lent ones. They stay as they were
// after a mistake, and where they aren't 237.
#[tactic(auto, unfolding(crate::specs::Reading::written_of))]
pub fn station(text: &[u8], out: &mut [u8]) -> Result<(), NoStation>
    ensures { (result, out.new) ≡ Spec.written_of text.now out.old }
{
    if out.len() != 237 {
        return Err(NoStation::Refused(Refusal::Space));
    }
    let reading = read(text)?;
    put_bytes(reading, out);
    Ok(())
}
