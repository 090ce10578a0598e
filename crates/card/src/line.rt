// A card's lines: the one loop that looks for a line, and what its words are.
ghost use Rattle.std.specs.Prelude.{◌≡◌, ◌-◌, length};
ghost use Rattle.lines.specs.Words.{words_of};
ghost use Rattle.card.specs.Card as Card;
ghost use Rattle.card.specs.Kind.{decides};
ghost use Rattle.card.specs.declared.line.Line.{Line};
ghost use Rattle.card.specs.Inner.{IsLine, IsFound, FirstLine};
ghost use Rattle.fields.specs.Names.{name_of};
ghost use Rattle.lines.specs.Alike.{alike};

use fields::Kind;
use fields::names::{field_of, is_name};
use fields::table::{has_field, is_maximum_gain, mode_of};
use lines::{line_end, text_start, word, word_count};

// A line of a text: its number, from 1, and what stands in it.
#[derive(Clone, Copy)]
pub struct Line<'a> {
    pub number: usize,
    pub words: &'a [u8],
}

// A line's word k; nothing past the last.
pub fn word_at(line: &[u8], k: usize) -> &[u8]
    ensures { result.now ≡ Card.word (words_of line.now) k }
{
    let span = word(line, k);
    &line[span.from..span.to]
}

// Whether a word names a maximum gain that this type has.
#[tactic(auto, unfolding(crate::specs::Kind::decides))]
fn decides(iant: usize, w: &[u8]) -> bool
    ensures { result ≡ decides iant w.now }
{
    let f = field_of(w);
    let kind = Kind {
        iant,
        mode: mode_of(f),
    };
    is_maximum_gain(f) && has_field(kind, f)
}

// The first line that passes the test.
// Inner step: the test can be made of each line.
pub fn find<F: Fn(Line<'_>) -> bool>(text: &[u8], passes: F) -> Option<Line<'_>>
    requires { (line : Line) → IsLine text.now line.number line → F.pre passes line }
    ensures { FirstLine text.now (F.post passes) result }
{
    let mut number: usize = 0;
    let mut at = text_start(text);
    // a line a turn, so a step of any length
    while at <= text.len() {
        let to = line_end(text, at);
        number += 1;
        let line = Line {
            number,
            words: &text[at..to],
        };
        if passes(line) {
            return Some(line);
        }
        at = to + 1;
    }
    None
}

// The first line that begins with the field's name.
pub(crate) fn line_for(text: &[u8], f: usize) -> Option<Line<'_>>
    ensures { IsFound text.now (Card.line_of (Card.card_of text.now) f) result }
{
    find(text, |line| is_name(f, word_at(line.words, 0)))
}

// The first line that begins with a maximum gain of this type.
pub(crate) fn gain_line(text: &[u8], iant: usize) -> Option<Line<'_>>
    ensures { IsFound text.now (Card.line_with (decides iant) (Card.card_of text.now)) result }
{
    find(text, |line| decides(iant, word_at(line.words, 0)))
}

// The first line of a field, 0 where there is none.
#[tactic(auto, unfolding(crate::specs::Inner::IsFound))]
pub fn line_of(text: &[u8], f: usize) -> usize
    ensures { result ≡ Card.line_of (Card.card_of text.now) f }
{
    match line_for(text, f) {
        Some(line) => line.number,
        None => 0,
    }
}

// What stands in that line; nothing, where there is none.
#[tactic(auto, using(crate::proofs::Found::no_words), unfolding(crate::specs::Inner::IsFound, crate::specs::Card::line_at))]
pub(crate) fn words_for(text: &[u8], f: usize) -> &[u8]
    ensures { words_of result.now ≡ Card.line_for (Card.card_of text.now) f }
{
    match line_for(text, f) {
        Some(line) => line.words,
        None => &[],
    }
}

// The field that a line is about, 0 for none.
pub(crate) fn field_in(line: &[u8]) -> usize
    ensures { result ≡ Card.field_in (words_of line.now) }
{
    field_of(word_at(line, 0))
}

// How many numbers a line has: its words but the first.
pub fn number_count(line: &[u8]) -> usize
    ensures { result ≡ length (words_of line.now) - 1 }
{
    word_count(line).saturating_sub(1)
}
