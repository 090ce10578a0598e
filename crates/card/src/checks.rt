// The mistakes of a card, in the order in which they are told.
ghost use Rattle.std.specs.Prelude.{◌≡◌};
ghost use Rattle.lines.specs.Words.{words_of};
ghost use Rattle.card.specs.Card as Card;
ghost use Rattle.card.specs.Inner.{IsLine, found};
ghost use Rattle.card.specs.Mistakes.{word_fault, first_bad, field_fault, mistake_in, first_mistake, type_mistake, is_missing, first_missing, missing_field, card_mistake};

use crate::kind::is_curtain;
use crate::line::{Line, field_in, line_for, line_of, number_count, word_at};
use crate::mistakes::{Fault, Mistake};
use decimal::{NotRead, read};
use fields::Kind;
use fields::first::least;
use fields::limits::{refusal_of, takes};
use fields::names::{FIELDS, TYPE};
use fields::table::{count_of, has_field};
use lines::{line_end, text_start, word_count};

// What is wrong with a word as number k of field f.
#[tactic(auto, unfolding(crate::specs::Mistakes::word_fault, crate::specs::Mistakes::read_fault))]
fn word_fault(kind: Kind, f: usize, k: usize, w: &[u8]) -> Option<Fault>
    ensures { result ≡ word_fault kind f k w.now }
{
    if (f == TYPE) & is_curtain(w) {
        return None;
    }
    match read(w) {
        Ok(x) if takes(kind, f, k, x) => None,
        Ok(_) => Some(Fault::Limit(refusal_of(f))),
        Err(NotRead::TooLarge) => Some(Fault::TooLarge),
        Err(NotRead::NotANumber) => Some(Fault::NotANumber),
    }
}

// What is wrong with number k of a line about field f.
fn number_fault(kind: Kind, f: usize, k: usize, line: &[u8]) -> Option<Fault>
    ensures { result ≡ word_fault kind f k (Card.word (words_of line.now) k) }
{
    word_fault(kind, f, k, word_at(line, k))
}

// The first of a line's numbers with something wrong.
fn first_bad(kind: Kind, line: &[u8]) -> Option<usize>
    ensures { result ≡ found (first_bad kind (words_of line.now)) }
{
    let f = field_in(line);
    let k = least(number_count(line), |k| {
        number_fault(kind, f, k, line).is_some()
    });
    if k == 0 { None } else { Some(k) }
}

// What is wrong with a line but for what its numbers are.
#[tactic(auto, unfolding(crate::specs::Mistakes::field_fault))]
fn field_fault(text: &[u8], kind: Kind, line: Line<'_>) -> Option<Fault>
    requires { IsLine text.now line.number line }
    ensures { result ≡ field_fault kind (Card.card_of text.now) line.entry.number }
{
    let words = line.words;
    let f = field_in(words);
    if f == 0 {
        return Some(Fault::Unknown);
    }
    let earlier = line_of(text, f);
    if earlier < line.number {
        return Some(Fault::Twice(earlier));
    }
    if !has_field(kind, f) {
        return Some(Fault::Foreign);
    }
    let count = number_count(words);
    let wanted = count_of(kind, f);
    if count < wanted {
        return Some(Fault::TooFew);
    }
    if wanted < count {
        return Some(Fault::TooMany);
    }
    None
}

// What is wrong with a line.
#[tactic(auto, unfolding(crate::specs::Mistakes::mistake_in))]
fn mistake_in(text: &[u8], kind: Kind, line: Line<'_>) -> Option<Mistake>
    requires { IsLine text.now line.number line }
    ensures { result ≡ mistake_in kind (Card.card_of text.now) line.entry.number }
{
    let words = line.words;
    if word_count(words) == 0 {
        return None;
    }
    let f = field_in(words);
    if let Some(what) = field_fault(text, kind, line) {
        return Some(Mistake {
            what,
            line: line.number,
            field: f,
            number: 0,
        });
    }
    let k = first_bad(kind, words)?;
    Some(Mistake {
        what: number_fault(kind, f, k, words)?,
        line: line.number,
        field: f,
        number: k,
    })
}

// The mistake of the first line that has one; a walk of its own, as it keeps the mistake that it finds.
fn first_mistake(text: &[u8], kind: Kind) -> Option<Mistake>
    ensures { result ≡ first_mistake kind (Card.card_of text.now) }
{
    let mut number: usize = 0;
    let mut at = text_start(text);
    while at <= text.len() {
        let to = line_end(text, at);
        number += 1;
        let line = Line {
            number,
            words: &text[at..to],
        };
        if let Some(mistake) = mistake_in(text, kind, line) {
            return Some(mistake);
        }
        at = to + 1;
    }
    None
}

// The mistake of the first `type` line.
#[tactic(auto, unfolding(crate::specs::Mistakes::type_mistake, crate::specs::Inner::IsFound))]
fn type_mistake(text: &[u8], kind: Kind) -> Option<Mistake>
    ensures { result ≡ type_mistake kind (Card.card_of text.now) }
{
    let Some(line) = line_for(text, TYPE) else {
        return Some(Mistake {
            what: Fault::Missing,
            line: 1,
            field: TYPE,
            number: 0,
        });
    };
    mistake_in(text, kind, line)
}

// Whether the kind has a field that the card hasn't.
#[tactic(auto, unfolding(crate::specs::Inner::IsFound))]
fn is_missing(text: &[u8], kind: Kind, f: usize) -> bool
    ensures { result ≡ is_missing kind (Card.card_of text.now) f }
{
    has_field(kind, f) && line_for(text, f).is_none()
}

// The first such field.
fn first_missing(text: &[u8], kind: Kind) -> Option<usize>
    ensures { result ≡ found (first_missing kind (Card.card_of text.now)) }
{
    let f = least(FIELDS, |f| is_missing(text, kind, f));
    if f == 0 { None } else { Some(f) }
}

// That mistake, told at the line of `type`.
#[tactic(auto, unfolding(crate::specs::Mistakes::missing_field))]
fn missing_field(text: &[u8], kind: Kind) -> Option<Mistake>
    ensures { result ≡ missing_field kind (Card.card_of text.now) }
{
    let field = first_missing(text, kind)?;
    Some(Mistake {
        what: Fault::Missing,
        line: line_of(text, TYPE),
        field,
        number: 0,
    })
}

// The first mistake of a card of this kind.
#[tactic(auto, unfolding(crate::specs::Mistakes::card_mistake))]
pub(crate) fn card_mistake(text: &[u8], kind: Kind) -> Option<Mistake>
    ensures { result ≡ card_mistake kind (Card.card_of text.now) }
{
    type_mistake(text, kind)
        .or_else(|| first_mistake(text, kind))
        .or_else(|| missing_field(text, kind))
}
