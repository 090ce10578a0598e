#![tactic(auto)]

// The curve of a plate as SVG paths (`curve_text`, specs/Curve.antt): one stroke for the levels, one for
// those that are folded over where that is shown apart, one for the floors. Each azimuth is drawn by one
// stroke at most (`one_stroke`, proofs/Laws.antt); whether any is a floor says `has_floor`.
ghost use Rattle.std.specs.Prelude.{◌≡◌, ◌+◌, ◌≤◌, ◌<◌, length};
ghost use Rattle.words.specs.Writing.{Put};
ghost use Rattle.curve.specs.Curve.{beyond, drawn, spot_of, coordinates, piece, step, pieces_to, stroke_text, curve_text, has_floor};

use answers::Kind;
use compass::{Point, point_at};
use dial::{Row, radius};
use labels::push_whole;
use words::page::Page;

// What a path goes through.
#[derive(Clone, Copy, Debug, PartialEq, Eq)]
pub enum Stroke {
    Levels,
    // What the mirror law folds over, where that is shown apart.
    Folded,
    Floors,
}

#[tactic(auto, unfolding(crate::specs::Curve::beyond))]
fn is_beyond(v: usize) -> bool
    ensures { result ≡ beyond v }
{
    180 < v && v != 270
}

#[tactic(auto, unfolding(crate::specs::Curve::draws, crate::specs::Curve::drawn))]
fn is_drawn(kinds: &[Kind; 360], fold: bool, stroke: Stroke, v: usize) -> bool
    ensures { result ≡ drawn kinds.now fold stroke v }
{
    let kind = kinds[v % 360];
    let folded = fold && is_beyond(v % 360);
    match stroke {
        Stroke::Levels => matches!(kind, Kind::Level) && !folded,
        Stroke::Folded => matches!(kind, Kind::Level) && folded,
        Stroke::Floors => matches!(kind, Kind::Floor),
    }
}

#[tactic(auto, unfolding(crate::specs::Curve::spot_of))]
fn spot(numbers: &[u32; 360], peak: u32, v: usize) -> Point
    requires { (v ≤ 360) × (peak ≤ 200000) }
    ensures { result ≡ spot_of numbers.now peak v }
{
    let r = radius(peak, numbers[v % 360]);
    point_at(v as u32, r)
}

#[tactic(auto, unfolding(crate::specs::Curve::coordinates, quoted::specs::Quoted::quoted))]
fn push_coordinates<const N: usize>(page: &mut Page<N>, letter: &[u8], p: Point)
    requires { (length page.old + 24 ≤ N) × (length letter.now ≤ 3) }
    ensures { Put 24 page.old (coordinates letter.now p) page.new }
{
    push_whole(page, letter, p.x);
    push_whole(page, b" ", p.y);
}

#[tactic(auto, using(words::proofs::Writing::joined, words::proofs::Writing::at_most), unfolding(crate::specs::Curve::piece, quoted::specs::Quoted::quoted))]
fn push_piece<const N: usize>(page: &mut Page<N>, fresh: bool, p: Point)
    requires { length page.old + 48 ≤ N }
    ensures { Put 48 page.old (piece fresh p) page.new }
{
    if fresh {
        push_coordinates(page, b" M ", p);
    }
    push_coordinates(page, b" L ", p);
}

#[tactic(auto, using(words::proofs::Writing::put_none), unfolding(crate::specs::Curve::step))]
fn push_step<const N: usize>(page: &mut Page<N>, here: bool, earlier: bool, p: Point)
    requires { length page.old + 48 ≤ N }
    ensures { Put 48 page.old (step here earlier p) page.new }
{
    if here {
        push_piece(page, !earlier, p);
    }
}

// The pieces of a stroke, azimuth by azimuth.
fn push_pieces<const N: usize>(page: &mut Page<N>, row: &Row, fold: bool, peak: u32, stroke: Stroke)
    requires { (length page.old + 17328 ≤ N) × (peak ≤ 200000) }
    ensures { Put 17328 page.old (pieces_to (drawn row.now.kinds fold stroke) (spot_of row.now.numbers peak) 361) page.new }
{
    let mut earlier = false;
    for v in 0..361 {
        let here = is_drawn(&row.kinds, fold, stroke, v);
        push_step(page, here, earlier, spot(&row.numbers, peak, v));
        earlier = here;
    }
}

// Inner step: a stroke of a row, after the words that open it.
#[tactic(auto, unfolding(crate::specs::Curve::stroke_text, quoted::specs::Quoted::quoted))]
pub fn push_stroke<const N: usize>(
    page: &mut Page<N>,
    opening: &[u8],
    row: &Row,
    fold: bool,
    peak: u32,
    stroke: Stroke,
)
    requires { (length page.old + 17430 ≤ N) × (length opening.now ≤ 90) × (peak ≤ 200000) }
    ensures { Put 17430 page.old (stroke_text opening.now row.now.numbers row.now.kinds fold peak stroke) page.new }
{
    page.push_bytes(opening);
    push_pieces(page, row, fold, peak, stroke);
    page.push_bytes(b"'/>\n");
}

// Inner step: the curve of a row whose peak is given.
pub fn push_curve<const N: usize>(page: &mut Page<N>, row: &Row, fold: bool, peak: u32)
    requires { (length page.old + 52400 ≤ N) × (peak ≤ 200000) }
    ensures { Put 52400 page.old (curve_text row.now.numbers row.now.kinds fold peak) page.new }
{
    page.push_bytes(
        b"<g fill='none' stroke='#000' stroke-width='40' stroke-linecap='round' stroke-linejoin='round'>\n",
    );
    push_stroke(page, b"<path d='", row, fold, peak, Stroke::Levels);
    push_stroke(
        page,
        b"<path stroke='#999' d='",
        row,
        fold,
        peak,
        Stroke::Folded,
    );
    push_stroke(
        page,
        b"<path stroke-dasharray='50 90' d='",
        row,
        fold,
        peak,
        Stroke::Floors,
    );
    page.push_bytes(b"</g>\n");
}

// Whether a floor is among the kinds.
pub fn has_floor(kinds: &[Kind; 360]) -> bool
    ensures { result ≡ has_floor kinds.now }
{
    kinds.iter().any(|kind| matches!(kind, Kind::Floor))
}
