#![tactic(auto)]

// The program `svg` on slices: the plate of a station as a picture, or two masts on one plate, for any
// bytes. The texts are `svg_in`, `svg_two_in` (specs/Svg.antt) and the program's `output_in`
// (specs/Output.antt): what crates `picture` and `pair` draw of the plate that crate `shown` shows, with
// crate `heading`'s words; a refusal is a picture too.
mod masts;

ghost use Rattle.std.specs.Prelude.{◌≡◌, ◌≤◌, length, take};
ghost use Rattle.words.specs.Writing.{Wrote};
ghost use Rattle.svg_text.specs.Svg.{caption_of, svg_in, beside_in, svg_two_in};
ghost use Rattle.svg_text.specs.Drawn.{drawn_of, drawn_mast};
ghost use Rattle.svg_text.specs.Output.{plate_for, masts_for, output_in};

use answers::Refusal;
use heading::Heading;
use masts::{Mast, read_mast};
use pair::pair_of_rows;
use picture::{picture_of_row, refusal_drawn};

// What stands above the plate.
#[tactic(auto, unfolding(crate::specs::Svg::caption_of))]
fn caption_for(h: Heading) -> captions::Heading
    ensures { result ≡ caption_of h }
{
    captions::Heading {
        antenna: h.antenna,
        mhz: h.mhz,
        elevation: h.elevation,
    }
}

// Writes the picture of the plate that these bytes ask for from the buffer's start on, and returns its
// length. `fold` shows apart what is folded over, where the mirror law holds. A buffer of under 65,536
// bytes gets nothing.
#[tactic(auto, unfolding(crate::specs::Svg::svg_in, crate::specs::Svg::pictured))]
pub fn svg(input: &[u8], fold: bool, text: &mut [u8]) -> usize
    ensures text { Wrote text.old 0 (svg_in (length text.old) input.now fold) text.new result }
    // what a caller needs to lend the text on, as `&text[..r]`
    ensures within { (result ≤ length text.new) × (result ≡ length (take result text.new)) }
{
    match read_mast(input) {
        Err(r) => refusal_drawn(None, r, text),
        Ok(m) => {
            let folded = fold & m.heading.mirrored;
            let caption = caption_for(m.heading);
            picture_of_row(&m.row, folded, caption, text)
        }
    }
}

// The first mast, which was read, with the second.
#[tactic(auto, unfolding(crate::specs::Svg::beside_in))]
fn svg_beside(first: Mast, second: &[u8], text: &mut [u8]) -> usize
    ensures text { Wrote text.old 0 (beside_in (length text.old) (drawn_mast first) (drawn_of second.now)) text.new result }
    ensures within { (result ≤ length text.new) × (result ≡ length (take result text.new)) }
{
    match read_mast(second) {
        Err(r) => refusal_drawn(Some(captions::Mast::B), r, text),
        Ok(m) => {
            let above = caption_for(first.heading);
            let below = caption_for(m.heading);
            pair_of_rows(&first.row, above, &m.row, below, text)
        }
    }
}

// Writes the picture of both masts on one plate from the buffer's start on, and returns its length; the
// first that refuses is told by its name, A or B. A buffer of under 131,072 bytes gets nothing.
#[tactic(auto, using(words::proofs::Writing::wrote_none), unfolding(crate::specs::Svg::svg_two_in, crate::specs::Svg::both_in))]
pub fn svg_two(first: &[u8], second: &[u8], text: &mut [u8]) -> usize
    ensures text { Wrote text.old 0 (svg_two_in (length text.old) first.now second.now) text.new result }
    ensures within { (result ≤ length text.new) × (result ≡ length (take result text.new)) }
{
    if text.len() < 131072 {
        return 0;
    }
    match read_mast(first) {
        Err(r) => refusal_drawn(Some(captions::Mast::A), r, text),
        Ok(m) => svg_beside(m, second, text),
    }
}

// A byte and a station.
#[tactic(auto, unfolding(crate::specs::Output::plate_for))]
fn asked_plate(input: &[u8], text: &mut [u8]) -> usize
    requires { length input.now ≡ 238 }
    ensures text { Wrote text.old 0 (plate_for (length text.old) input.now) text.new result }
    ensures within { (result ≤ length text.new) × (result ≡ length (take result text.new)) }
{
    if 1 < input[0] {
        return refusal_drawn(None, Refusal::Record, text);
    }
    svg(&input[1..238], input[0] == 1, text)
}

// A byte and two stations.
#[tactic(auto, unfolding(crate::specs::Output::masts_for))]
fn asked_masts(input: &[u8], text: &mut [u8]) -> usize
    requires { length input.now ≡ 475 }
    ensures text { Wrote text.old 0 (masts_for (length text.old) input.now) text.new result }
    ensures within { (result ≤ length text.new) × (result ≡ length (take result text.new)) }
{
    if input[0] != 2 {
        return refusal_drawn(None, Refusal::Record, text);
    }
    svg_two(&input[1..238], &input[238..475], text)
}

// Writes the program's output for this input from the buffer's start on, and returns its length. The
// first byte says what is asked: 0 a plate, 1 a plate with what is folded over shown apart, 2 two
// masts; then a station of 237 bytes, for 2 two of them. A buffer of under 131,072 bytes gets nothing.
#[tactic(auto, using(words::proofs::Writing::wrote_none), unfolding(crate::specs::Output::output_in))]
pub fn output(input: &[u8], text: &mut [u8]) -> usize
    ensures text { Wrote text.old 0 (output_in (length text.old) input.now) text.new result }
    ensures within { (result ≤ length text.new) × (result ≡ length (take result text.new)) }
{
    if text.len() < 131072 {
        return 0;
    }
    match input.len() {
        238 => asked_plate(input, text),
        475 => asked_masts(input, text),
        _ => refusal_drawn(None, Refusal::Record, text),
    }
}
