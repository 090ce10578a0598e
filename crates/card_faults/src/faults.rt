// What is said of a field, after its name.
ghost use Rattle.std.specs.Prelude.{◌+◌, ◌≤◌, length};
ghost use Rattle.answers.specs.Outcome as Outcome;
ghost use Rattle.words.specs.Writing.{Put};
ghost use Rattle.card_faults.specs.Faults.{twice, foreign, second_gain, limit, missing};

use crate::limits::{broken, refused_text};
use answers::Refusal;
use card_words::pieces::{push_counted, push_number, push_shown};
use fields::CURTAIN;
use fields::names::{GAIN, push_name};
use words::page::Page;

// Inner step: a sentence's page has room for it.
#[tactic(auto, unfolding(crate::specs::Faults::twice, quoted::specs::Quoted::quoted))]
pub fn push_twice<const N: usize>(page: &mut Page<N>, earlier: usize)
    requires { length page.old + 128 ≤ N }
    ensures { Put 128 page.old (twice earlier) page.new }
{
    page.push_bytes(b": given twice, first at line ");
    push_number(page, earlier);
}

// Another type's field, on a card of this type.
// Inner step: a sentence's page has room for it.
#[tactic(auto, using(words::proofs::Writing::at_most), unfolding(crate::specs::Faults::foreign, quoted::specs::Quoted::quoted))]
pub fn push_foreign<const N: usize>(page: &mut Page<N>, iant: usize)
    requires { length page.old + 128 ≤ N }
    ensures { Put 128 page.old (foreign iant) page.new }
{
    if iant == CURTAIN {
        page.push_bytes(b": the curtain has no such field");
    } else {
        push_counted(page, b": type ", iant, b" has no such field");
    }
}

// `other` is the maximum gain field that an earlier line has.
// Inner step: a sentence's page has room for it.
#[tactic(auto, unfolding(crate::specs::Faults::second_gain, quoted::specs::Quoted::quoted))]
pub fn push_second_gain<const N: usize>(page: &mut Page<N>, earlier: usize, other: usize)
    requires { length page.old + 128 ≤ N }
    ensures { Put 128 page.old (second_gain earlier other) page.new }
{
    push_counted(page, b": a second maximum gain, line ", earlier, b" has ");
    push_name(page, other);
}

// The word is read as x, which the field doesn't take as its first, second ..
// Inner step: a sentence's page has room for it.
#[tactic(auto, using(crate::proofs::Lengths::broken_short, crate::proofs::Lengths::refused_short))]
pub fn push_limit<const N: usize>(
    page: &mut Page<N>,
    word: &[u8],
    f: usize,
    number: usize,
    x: f32,
    refusal: Refusal,
)
    requires { length page.old + 128 ≤ N }
    ensures { Put 128 page.old (limit word.now f number x (Outcome.number refusal)) page.new }
{
    page.push_bytes(b": ");
    push_shown(page, word);
    page.push_bytes(broken(f, number, x));
    page.push_bytes(refused_text(refusal));
}

// Inner step: a sentence's page has room for it.
#[tactic(auto, using(words::proofs::Writing::at_most), unfolding(crate::specs::Faults::missing, quoted::specs::Quoted::quoted))]
pub fn push_missing<const N: usize>(page: &mut Page<N>, f: usize)
    requires { length page.old + 128 ≤ N }
    ensures { Put 128 page.old (missing f) page.new }
{
    if f == GAIN {
        page.push_bytes(b": no maximum gain is given");
    } else {
        page.push_bytes(b": missing");
    }
}
