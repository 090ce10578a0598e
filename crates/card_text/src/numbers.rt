// A mistake as numbers.
ghost use Rattle.std.specs.Prelude.{◌≡◌};
ghost use Rattle.card.specs.Card as Card;
ghost use Rattle.card.specs.Kind.{kind_in};
ghost use Rattle.card_text.specs.Numbers.{what_is, what_of, mistake_words};

use crate::sentences::{gain_field, is_second};
use card::kind::kind_in;
use card::line::line_of;
use card::mistakes::{Fault, Mistake};
use card_words::pieces::capped;
use fields::Kind;

// A fault's number, the earlier line that it names and the refusal that it breaks; 0 for none.
#[derive(Clone, Copy)]
struct What {
    number: u32,
    earlier: usize,
    refusal: u32,
}

fn what_is(number: u32, earlier: usize, refusal: u32) -> What
    ensures { result ≡ what_is number earlier refusal }
{
    What {
        number,
        earlier,
        refusal,
    }
}

// `earlier` is the line of the card's own maximum gain.
#[tactic(auto, unfolding(crate::specs::Numbers::what_of))]
fn what_of(kind: Kind, earlier: usize, f: usize, fault: Fault) -> What
    ensures { result ≡ what_of kind earlier f fault }
{
    match fault {
        Fault::Unknown => what_is(1, 0, 0),
        Fault::Twice(line) => what_is(2, line, 0),
        Fault::Foreign if is_second(kind, f) => what_is(4, earlier, 0),
        Fault::Foreign => what_is(3, 0, 0),
        Fault::TooFew => what_is(5, 0, 0),
        Fault::TooMany => what_is(6, 0, 0),
        Fault::NotANumber => what_is(7, 0, 0),
        Fault::TooLarge => what_is(8, 0, 0),
        Fault::Limit(refusal) => what_is(9, 0, u8::from(refusal) as u32),
        Fault::Missing => what_is(10, 0, 0),
    }
}

// Inner step: what, line, field, number, earlier line and refusal of this card's mistake.
#[tactic(auto, unfolding(crate::specs::Numbers::mistake_words))]
pub fn mistake_words(text: &[u8], m: Mistake) -> [u32; 6]
    ensures { result ≡ mistake_words (kind_in (Card.card_of text.now)) (Card.card_of text.now) m }
{
    let kind = kind_in(text);
    let earlier = line_of(text, gain_field(kind.mode));
    let w = what_of(kind, earlier, m.field, m.what);
    [
        w.number,
        capped(m.line),
        capped(m.field),
        capped(m.number),
        capped(w.earlier),
        w.refusal,
    ]
}
