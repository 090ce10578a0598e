// The station of a card: each place holds the number that the table of fields says.
ghost use Rattle.std.specs.Prelude.{◌≡◌};
ghost use Rattle.card.specs.Card as Card;
ghost use Rattle.card.specs.Places.{value_of, unnamed, placed, station_in};

use crate::kind::is_curtain;
use crate::line::{word_at, words_for};
use decimal::read;
use fields::table::source_of;
use fields::{CURTAIN, Kind};
use station::Station;
use station::fields::{blank, with_float};

// The number that a word stands for.
#[tactic(auto, unfolding(crate::specs::Places::value_of, crate::specs::Places::read_value))]
fn value_of(w: &[u8]) -> f32
    ensures { result ≡ value_of w.now }
{
    if is_curtain(w) {
        return 12.0;
    }
    read(w).unwrap_or(0.0)
}

// What stands in a place that no field has.
#[tactic(auto, unfolding(crate::specs::Places::unnamed))]
fn unnamed(kind: Kind, p: usize) -> f32
    ensures { result ≡ unnamed kind p }
{
    if (kind.iant == CURTAIN) & (26 <= p) & (p < 56) {
        -99999.0
    } else {
        0.0
    }
}

// What stands in place p.
#[tactic(auto, unfolding(crate::specs::Places::placed))]
pub(crate) fn placed(text: &[u8], kind: Kind, p: usize) -> f32
    ensures { result ≡ placed kind (Card.card_of text.now) p }
{
    let source = source_of(kind, p);
    if source.field == 0 {
        return unnamed(kind, p);
    }
    value_of(word_at(words_for(text, source.field), source.number))
}

// Places 0 to 55, with the mode.
pub(crate) fn station_in(text: &[u8], kind: Kind) -> Station
    ensures { result ≡ station_in kind (Card.card_of text.now) }
{
    let mut station = blank(kind.mode);
    for p in 0..56 {
        station = with_float(station, p, placed(text, kind, p));
    }
    station
}
