// What is drawn of two masts: the plate with its rings, both curves, the rings' labels and the winds.
ghost use Rattle.std.specs.Prelude.{◌+◌, ◌≤◌, length};
ghost use Rattle.words.specs.Writing.{Put};
ghost use Rattle.pair.specs.Drawn.{open_text, mast_text, masts_text, drawn_text};

use captions::push_winds;
use curve::{Stroke, push_stroke};
use dial::Row;
use rings::{push_labels, push_scale, stands_within};
use words::page::Page;

fn push_open<const N: usize>(page: &mut Page<N>)
    requires { length page.old + 220 ≤ N }
    ensures { Put 220 page.old open_text page.new }
{
    page.push_bytes(
        b"<svg xmlns='http://www.w3.org/2000/svg' width='800' height='800' viewBox='-1000 -600 10000 10000' font-family='sans-serif' font-size='270'>\n",
    );
    page.push_bytes(b"<rect x='-1000' y='-600' width='10000' height='10000' fill='#fff'/>\n");
}

// A mast's levels and its floors, after the words that open them.
#[tactic(auto, unfolding(crate::specs::Drawn::mast_text, quoted::specs::Quoted::quoted))]
fn push_mast<const N: usize>(
    page: &mut Page<N>,
    opening: &[u8],
    floors: &[u8],
    row: &Row,
    peak: u32,
)
    requires { (length page.old + 35000 ≤ N) × (length opening.now ≤ 110) × (length floors.now ≤ 90) × (peak ≤ 200000) }
    ensures { Put 35000 page.old (mast_text opening.now floors.now row.now.numbers row.now.kinds peak) page.new }
{
    page.push_bytes(opening);
    push_stroke(page, b"<path d='", row, false, peak, Stroke::Levels);
    push_stroke(page, floors, row, false, peak, Stroke::Floors);
    page.push_bytes(b"</g>\n");
}

// The second mast, and the first above it.
fn push_masts<const N: usize>(page: &mut Page<N>, first: &Row, second: &Row, peak: u32)
    requires { (length page.old + 70000 ≤ N) × (peak ≤ 200000) }
    ensures { Put 70000 page.old (masts_text first.now.numbers first.now.kinds second.now.numbers second.now.kinds peak) page.new }
{
    push_mast(
        page,
        b"<g fill='none' stroke='#aaa' stroke-width='100' stroke-linecap='round' stroke-linejoin='round'>\n",
        b"<path stroke-dasharray='20 190' d='",
        second,
        peak,
    );
    push_mast(
        page,
        b"<g fill='none' stroke='#000' stroke-width='36' stroke-linecap='round' stroke-linejoin='round'>\n",
        b"<path stroke-dasharray='50 160' stroke-dashoffset='-85' d='",
        first,
        peak,
    );
}

// Inner step: all that is drawn, on the scale of a peak.
#[tactic(auto, unfolding(crate::specs::Drawn::drawn_text))]
pub fn push_drawn<const N: usize>(page: &mut Page<N>, first: &Row, second: &Row, peak: u32)
    requires { (length page.old + 71480 ≤ N) × (peak ≤ 200000) }
    ensures { Put 71480 page.old (drawn_text first.now.numbers first.now.kinds second.now.numbers second.now.kinds peak) page.new }
{
    push_open(page);
    push_scale(page, peak);
    push_masts(page, first, second, peak);
    push_labels(page, stands_within(&first.numbers), peak);
    push_winds(page);
}
