// The sentence of a mistake, piece by piece.
ghost use Rattle.std.specs.Prelude.{◌≡◌, ◌+◌, ◌≤◌, length};
ghost use Rattle.words.specs.Writing.{Put};
ghost use Rattle.card.specs.Card as Card;
ghost use Rattle.card_text.specs.Sentences.{is_second, gain_field, not_had, said_of, subject, mistake_text, is_remarked, remark_text};

use card::line::line_of;
use card::mistakes::{Fault, Mistake};
use card_faults::faults::{push_foreign, push_limit, push_missing, push_second_gain, push_twice};
use card_places::places::{numbers_in, word_at};
use card_words::pieces::{push_counts, push_number, push_said, push_shown};
use decimal::read;
use fields::Kind;
use fields::names::{GAIN, GAIN_MHZ, GAIN_RATIO, MHZ, push_name};
use fields::table::{count_of, has_field, is_maximum_gain, mode_of};
use floats::range::is_between;
use words::page::Page;

// A field's name; where there is no such field, the first word of the line of this number.
#[tactic(auto, using(words::proofs::Writing::at_most), unfolding(crate::specs::Sentences::subject))]
fn push_subject<const N: usize>(page: &mut Page<N>, text: &[u8], line: usize, f: usize)
    requires { length page.old + 42 ≤ N }
    ensures { Put 42 page.old (subject (Card.line_at (Card.card_of text.now) line) f) page.new }
{
    if f == 0 {
        push_shown(page, word_at(text, line, 0));
    } else {
        push_name(page, f);
    }
}

// Whether the type has a maximum gain in another mode.
#[tactic(auto, unfolding(crate::specs::Sentences::is_second))]
pub(crate) fn is_second(kind: Kind, f: usize) -> bool
    ensures { result ≡ is_second kind f }
{
    let other = Kind {
        mode: mode_of(f),
        ..kind
    };
    is_maximum_gain(f) && has_field(other, f)
}

// The maximum gain field of a mode.
#[tactic(auto, unfolding(crate::specs::Sentences::gain_field))]
pub(crate) fn gain_field(mode: u8) -> usize
    ensures { result ≡ gain_field mode }
{
    match mode {
        1 => GAIN_RATIO,
        2 => GAIN_MHZ,
        _ => GAIN,
    }
}

// A field that the kind doesn't have; `earlier` is the line of the card's own maximum gain.
#[tactic(auto, unfolding(crate::specs::Sentences::not_had))]
fn push_not_had<const N: usize>(page: &mut Page<N>, kind: Kind, earlier: usize, f: usize)
    requires { length page.old + 128 ≤ N }
    ensures { Put 128 page.old (not_had kind earlier f) page.new }
{
    if is_second(kind, f) {
        push_second_gain(page, earlier, gain_field(kind.mode));
    } else {
        push_foreign(page, kind.iant);
    }
}

// What is said of a field, after its name.
#[tactic(auto, using(words::proofs::Writing::at_most), unfolding(crate::specs::Sentences::said_of, card::specs::Places::read_value, card_faults::specs::Faults::too_few, card_faults::specs::Faults::too_many, card_faults::specs::Faults::not_a_number, card_faults::specs::Faults::too_large, quoted::specs::Quoted::quoted))]
fn push_said_of<const N: usize>(
    page: &mut Page<N>,
    text: &[u8],
    kind: Kind,
    earlier: usize,
    m: Mistake,
)
    requires { length page.old + 128 ≤ N }
    ensures { Put 128 page.old (said_of kind earlier m.what (Card.line_at (Card.card_of text.now) m.line) m.field m.number) page.new }
{
    let f = m.field;
    let count = numbers_in(text, m.line);
    let wanted = count_of(kind, f);
    let word = word_at(text, m.line, m.number);
    match m.what {
        Fault::Unknown => page.push_bytes(b": there is no such field"),
        Fault::Twice(line) => push_twice(page, line),
        Fault::Foreign => push_not_had(page, kind, earlier, f),
        Fault::TooFew => push_counts(page, b": too few numbers, ", count, b" of ", wanted),
        Fault::TooMany => push_counts(page, b": too many numbers, ", count, b" for ", wanted),
        Fault::NotANumber => push_said(page, word, b" is not a number"),
        Fault::TooLarge => push_said(page, word, b" is too large"),
        Fault::Limit(refusal) => {
            let x = read(word).unwrap_or(0.0);
            push_limit(page, word, f, m.number, x, refusal);
        }
        Fault::Missing => push_missing(page, f),
    }
}

// The sentence of a mistake.
pub(crate) fn push_mistake<const N: usize>(page: &mut Page<N>, text: &[u8], kind: Kind, m: Mistake)
    requires { length page.old + 182 ≤ N }
    ensures { Put 182 page.old (mistake_text kind (Card.card_of text.now) m) page.new }
{
    let earlier = line_of(text, gain_field(kind.mode));
    push_number(page, m.line);
    page.push_bytes(b": ");
    push_subject(page, text, m.line, m.field);
    push_said_of(page, text, kind, earlier, m);
}

// Whether document 01 takes the operating MHz as another.
#[tactic(auto, unfolding(crate::specs::Sentences::is_remarked))]
fn is_remarked(mode: u8, mhz: f32) -> bool
    ensures { result ≡ is_remarked mode mhz }
{
    (mode == 1) & !is_between(mhz, 2.0, 30.0)
}

// The sentence of a remark, if there is one.
#[tactic(auto, using(words::proofs::Writing::put_none), unfolding(crate::specs::Sentences::remark_text))]
pub(crate) fn push_remarked<const N: usize>(page: &mut Page<N>, text: &[u8], mode: u8, mhz: f32)
    requires { length page.old + 182 ≤ N }
    ensures { Put 182 page.old (remark_text (Card.card_of text.now) mode mhz) page.new }
{
    if is_remarked(mode, mhz) {
        let line = line_of(text, MHZ);
        let word = word_at(text, line, 1);
        push_number(page, line);
        page.push_bytes(b": ");
        push_name(page, MHZ);
        push_said(page, word, b" is outside 2 to 30 and counts as 10 MHz");
    }
}
