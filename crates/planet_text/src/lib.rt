#![tactic(auto)]

// Planet pattern text for the coverage planners (document 02, card 14): from the 237 bytes that
// `plate` reads to the text, for any bytes. The answer is `planet_of`, and the lent text afterwards
// `text_after` (specs/Planet.antt); `output` has the program's output, `output_in`.
// What is true of a text stands in `planet_laws`. 8,960 bytes are room for any text (`enough-room`,
// proofs/Accepted.antt).
pub mod output;

ghost use Rattle.std.specs.Prelude.{◌≡◌, true, length};
ghost use Rattle.answers.specs.Outcome.{outcome};
ghost use Rattle.antenna.specs.TableSum.{own_table};
ghost use Rattle.planet_text.specs.Planet.{spanned, pattern_text, planet_of, text_after, Delivered};

use answers::Refusal;
use model::table::blank_table;
use planet_lines::lines::push_text;
use planet_lines::losses::all_in_span;
use planet_vertical::vertical::read_vertical;
use plate_text::row::asked_row;
use request::{Request, prepare};
use words::page::{Page, put_page};

// The text of both parts' numbers, if they are in span and there is room for it: its length.
#[tactic(auto, using(floats::proofs::Tests::both), unfolding(crate::specs::Planet::spanned, crate::specs::Planet::in_room, crate::specs::Planet::length_of, crate::specs::Planet::lent_after, request::specs::Request::and_then))]
fn write_text(
    parm: [f32; 20],
    horizontal: &[f32; 360],
    vertical: &[f32; 181],
    text: &mut [u8],
) -> Result<usize, Refusal>
    ensures { Delivered (spanned parm horizontal.now vertical.now) text.old result text.new }
{
    let spans = all_in_span(horizontal) & all_in_span(vertical);
    if !spans {
        return Err(Refusal::Span);
    }
    let mut page: Page<8960> = Page::new();
    push_text(&mut page, parm, horizontal, vertical);
    if text.len() < page.text().len() {
        return Err(Refusal::Space);
    }
    Ok(put_page(&page, text))
}

// The plate row and the vertical numbers, then the text.
#[tactic(auto, using(crate::proofs::Steps::text_of_row, request::proofs::Then::then_refused, request::proofs::Then::then_accepted), unfolding(crate::specs::Planet::vertical_text, crate::specs::Planet::in_room, crate::specs::Planet::length_of, crate::specs::Planet::lent_after, request::specs::Request::and_then))]
fn write_patterns(q: Request, table: &[f32], text: &mut [u8]) -> Result<usize, Refusal>
    requires { own_table q.antenna table.now ≡ true }
    ensures { Delivered (pattern_text q table.now) text.old result text.new }
{
    let horizontal = asked_row(q, table)?;
    let vertical = read_vertical(q, table)?;
    write_text(q.parm, &horizontal, &vertical, text)
}

// Writes the Planet text of this input over the first bytes of `text`, and answers its length.
#[tactic(auto, using(crate::proofs::Steps::text_of_request, crate::proofs::Ready::own_of_request, request::proofs::Then::then_refused, request::proofs::Then::then_accepted), unfolding(crate::specs::Planet::in_room, crate::specs::Planet::length_of, crate::specs::Planet::lent_after, request::specs::Request::and_then))]
pub fn planet(input: &[u8], text: &mut [u8]) -> Result<usize, Refusal>
    ensures answer { outcome result ≡ planet_of input.now (length text.old) }
    ensures text { text.new ≡ text_after input.now text.old }
{
    let mut table = blank_table();
    let request = prepare(input, &mut table)?;
    write_patterns(request, &table, text)
}
