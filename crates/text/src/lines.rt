// The lines of answers: the gain at an azimuth with its kind, or a refusal's number.
ghost use Rattle.std.specs.Prelude.{◌≡◌, ◌+◌, ◌≤◌, ◌<◌, length};
ghost use Rattle.words.specs.Writing.{Put};
ghost use Rattle.answers.specs.Outcome.{number, outcome_as};
ghost use Rattle.antenna.specs.Gain.{told};
ghost use Rattle.text.specs.Lines.{kind_name, line, gain_line, refusal_line};

use answers::{Kind, Refusal};
use antenna::gain::Gain;
use numeric::bits::bits_of;
use words::ascii::{push_decimal, push_hexadecimal};
use words::page::Page;

// The name of a kind.
#[tactic(auto, unfolding(crate::specs::Lines::kind_name))]
pub fn kind_name(kind: Kind) -> &'static [u8]
    ensures value { result.now ≡ kind_name kind }
    ensures upper_bound { length result.now ≤ 7 }
{
    match kind {
        Kind::Level => b"level",
        Kind::Floor => b"floor",
        Kind::Silence => b"silence",
    }
}

// Azimuth, the number's bits and the name of its kind.
#[tactic(auto, unfolding(crate::specs::Lines::line))]
fn push_line<const N: usize>(page: &mut Page<N>, azimuth: u32, x: f32, kind: Kind)
    requires { (length page.old + 21 ≤ N) × (azimuth < 1000) }
    ensures { Put 21 page.old (line azimuth x (kind_name kind)) page.new }
{
    push_decimal(page, azimuth);
    page.push(b' ');
    push_hexadecimal(page, bits_of(x));
    page.push(b' ');
    page.push_bytes(kind_name(kind));
    page.push(b'\n');
}

// Inner step: the line of a refusal.
#[tactic(auto, unfolding(crate::specs::Lines::refusal_line))]
pub fn push_refusal<const N: usize>(page: &mut Page<N>, refusal: Refusal)
    requires { length page.old + 12 ≤ N }
    ensures { Put 12 page.old (refusal_line (number refusal)) page.new }
{
    page.push_bytes(b"refused ");
    push_decimal(page, u8::from(refusal) as u32);
    page.push(b'\n');
}

// Inner step: the line of the answer at an azimuth.
#[tactic(auto, unfolding(crate::specs::Lines::gain_line, crate::specs::Lines::printed))]
pub fn push_gain<const N: usize>(page: &mut Page<N>, azimuth: u32, answer: Result<Gain, Refusal>)
    requires { (length page.old + 21 ≤ N) × (azimuth < 1000) }
    ensures { Put 21 page.old (gain_line azimuth (outcome_as told answer)) page.new }
{
    match answer {
        Ok(g) => push_line(page, azimuth, g.number, g.kind),
        Err(r) => push_refusal(page, r),
    }
}
