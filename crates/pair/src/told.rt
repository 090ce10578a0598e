// What is told of two masts: the legend, what dashes mean, and the table with the figures of each.
ghost use Rattle.std.specs.Prelude.{◌+◌, ◌≤◌, ◌≡◌, length};
ghost use Rattle.words.specs.Writing.{Put};
ghost use Rattle.dial.specs.Scale.{peak_of};
ghost use Rattle.pair.specs.Pair.{greater_peak};
ghost use Rattle.pair.specs.Told.{shape_of, figures_of, told_text};

use answers::Kind;
use captions::Heading;
use curve::has_floor;
use dial::{Row, peak_azimuth};
use figures::{beam, behind, leads_over};
use table::column::{Figures, Shape, Shown, push_table};
use table::legend::{push_dashed, push_legend};
use words::page::Page;

#[tactic(auto, unfolding(dial::specs::Scale::peak_of))]
fn peak(numbers: &[u32; 360]) -> u32
    ensures { result ≡ peak_of numbers.now }
{
    numbers[peak_azimuth(numbers)]
}

// Inner step: the greater of two rows' peaks.
#[tactic(auto, unfolding(crate::specs::Pair::greater_peak))]
pub fn greater_peak(first: &[u32; 360], second: &[u32; 360]) -> u32
    ensures { result ≡ greater_peak first.now second.now }
{
    peak(first).max(peak(second))
}

#[tactic(auto, using(dial::proofs::OtherKinds::no_silence, dial::proofs::OtherKinds::no_floor), unfolding(crate::specs::Told::shape_of, dial::specs::Scale::peak_of))]
fn shape_of(row: &Row) -> Shape
    ensures { result ≡ shape_of row.now.numbers row.now.kinds }
{
    let azimuth = peak_azimuth(&row.numbers);
    let behind_at = behind(&row.numbers);
    let width = beam(&row.numbers);
    match (row.kinds[0], row.kinds[azimuth]) {
        (Kind::Silence, _) => Shape::Silence,
        (_, Kind::Floor) => Shape::Floors,
        _ => Shape::Shown(Shown {
            azimuth: azimuth as u32,
            peak: row.numbers[azimuth],
            beam: width as u32,
            front: row.numbers[0],
            behind: row.numbers[behind_at],
        }),
    }
}

// What is known of a mast beside the other one's row.
#[tactic(auto, unfolding(crate::specs::Told::figures_of))]
fn figures_of(heading: Heading, row: &Row, other: &[u32; 360]) -> Figures
    ensures { result ≡ figures_of heading row.now.numbers row.now.kinds other.now }
{
    let led = leads_over(row, other);
    Figures {
        heading,
        shape: shape_of(row),
        leads: led as u32,
    }
}

// Inner step: all that is told.
#[tactic(auto, unfolding(crate::specs::Told::told_text))]
pub fn push_told<const N: usize>(
    page: &mut Page<N>,
    first: &Row,
    first_heading: Heading,
    second: &Row,
    second_heading: Heading,
)
    requires { length page.old + 1412 ≤ N }
    ensures { Put 1412 page.old (told_text first.now.numbers first.now.kinds first_heading second.now.numbers second.now.kinds second_heading) page.new }
{
    let f = figures_of(first_heading, first, &second.numbers);
    let g = figures_of(second_heading, second, &first.numbers);
    let floors = has_floor(&first.kinds) | has_floor(&second.kinds);
    push_legend(page, first_heading.antenna, second_heading.antenna);
    push_dashed(page, floors);
    push_table(page, f, g);
}
