// A card's kind: its type, and its mode by the maximum gain field that it has.
ghost use Rattle.std.specs.Prelude.{◌≡◌, ◌≤◌};
ghost use Rattle.card.specs.Card as Card;
ghost use Rattle.card.specs.Kind.{is_curtain, type_of, type_in, mode_in, kind_in};

use crate::line::{field_in, gain_line, word_at, words_for};
use decimal::read;
use fields::limits::type_number;
use fields::names::TYPE;
use fields::table::mode_of;
use fields::{CURTAIN, Kind};
use lines::same;

#[tactic(auto, unfolding(quoted::specs::Quoted::quoted))]
pub(crate) fn is_curtain(w: &[u8]) -> bool
    ensures { result ≡ is_curtain w.now }
{
    same(b"curtain", w)
}

// The type that a word is, 0 for none.
#[tactic(auto, unfolding(crate::specs::Kind::type_of, crate::specs::Kind::numbered_type))]
fn type_of(w: &[u8]) -> usize
    ensures { result ≡ type_of w.now }
{
    if is_curtain(w) {
        return CURTAIN;
    }
    match read(w) {
        Ok(x) => type_number(x),
        Err(_) => 0,
    }
}

// The type that the first number of the `type` line is.
#[tactic(auto, unfolding(crate::specs::Kind::type_in))]
fn type_in(text: &[u8]) -> usize
    ensures { result ≡ type_in (Card.card_of text.now) }
{
    type_of(word_at(words_for(text, TYPE), 1))
}

#[tactic(auto, using(crate::proofs::Found::no_mode), unfolding(crate::specs::Kind::mode_in, crate::specs::Inner::IsFound, crate::specs::Card::line_at))]
fn mode_in(text: &[u8], iant: usize) -> u8
    ensures { result ≡ mode_in iant (Card.card_of text.now) }
{
    if iant == CURTAIN {
        return 3;
    }
    match gain_line(text, iant) {
        Some(line) => mode_of(field_in(line.words)),
        None => 0,
    }
}

#[tactic(auto, unfolding(crate::specs::Kind::kind_in))]
pub fn kind_in(text: &[u8]) -> Kind
    ensures { result ≡ kind_in (Card.card_of text.now) }
{
    let iant = type_in(text);
    let mode = mode_in(text, iant);
    Kind { iant, mode }
}
