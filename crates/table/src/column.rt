// The table below a plate with two masts: what each row is, and a column for each mast.
ghost use Rattle.std.specs.Prelude.{◌+◌, ◌≤◌, ◌<◌, length};
ghost use Rattle.words.specs.Writing.{Put};
ghost use Rattle.table.specs.Table.{cell_text, words_text, set_text, peak_text, beam_text, back_text, leads_text, none_text, shown_text, shape_text, column_text, heads_text, table_text};

use captions::Heading;
use figures::push_difference;
use labels::{push_reading, push_whole};
use words::page::Page;

// A row with a peak. Gains are raised hundredths, azimuths and widths degrees.
#[derive(Clone, Copy)]
pub struct Shown {
    pub azimuth: u32,
    pub peak: u32,
    pub beam: u32,
    // the gains at azimuth 0 and behind
    pub front: u32,
    pub behind: u32,
}

#[derive(Clone, Copy)]
pub enum Shape {
    Silence,
    // the peak is a floor, so all is
    Floors,
    Shown(Shown),
}

// What is known of one mast.
#[derive(Clone, Copy)]
pub struct Figures {
    pub heading: Heading,
    pub shape: Shape,
    // the azimuths in which it leads the other
    pub leads: u32,
}

// The start of a cell, in a column at x.
#[tactic(auto, unfolding(crate::specs::Table::cell_text, quoted::specs::Quoted::quoted))]
fn push_cell<const N: usize>(page: &mut Page<N>, x: u32, row: u32)
    requires { (length page.old + 34 ≤ N) × (row < 5) }
    ensures { Put 34 page.old (cell_text x row) page.new }
{
    push_whole(page, b"<text x='", x);
    push_whole(page, b"' y='", 8060 + 310 * row);
}

// A cell of words alone.
#[tactic(auto, unfolding(crate::specs::Table::words_text, quoted::specs::Quoted::quoted))]
fn push_words<const N: usize>(page: &mut Page<N>, x: u32, row: u32, words: &[u8])
    requires { (length page.old + 60 ≤ N) × (row < 5) × (length words.now ≤ 16) }
    ensures { Put 60 page.old (words_text x row words.now) page.new }
{
    push_cell(page, x, row);
    page.push_bytes(b"'>");
    page.push_bytes(words);
    page.push_bytes(b"</text>\n");
}

fn push_set<const N: usize>(page: &mut Page<N>, x: u32, h: Heading)
    requires { length page.old + 80 ≤ N }
    ensures { Put 80 page.old (set_text x h) page.new }
{
    push_cell(page, x, 0);
    push_reading(page, b"'>", h.mhz);
    push_whole(page, b" MHz, ", h.elevation);
    page.push_bytes(b"&#176;</text>\n");
}

fn push_peak<const N: usize>(page: &mut Page<N>, x: u32, peak: u32, azimuth: u32)
    requires { length page.old + 82 ≤ N }
    ensures { Put 82 page.old (peak_text x peak azimuth) page.new }
{
    push_cell(page, x, 1);
    push_reading(page, b"'>", peak);
    push_whole(page, b" dBi at ", azimuth);
    page.push_bytes(b"&#176;</text>\n");
}

#[tactic(auto, unfolding(crate::specs::Table::beam_text, quoted::specs::Quoted::quoted))]
fn push_beam<const N: usize>(page: &mut Page<N>, x: u32, beam: u32)
    requires { length page.old + 60 ≤ N }
    ensures { Put 60 page.old (beam_text x beam) page.new }
{
    push_cell(page, x, 2);
    push_whole(page, b"'>", beam);
    page.push_bytes(b"&#176;</text>\n");
}

fn push_back<const N: usize>(page: &mut Page<N>, x: u32, front: u32, behind: u32)
    requires { length page.old + 61 ≤ N }
    ensures { Put 61 page.old (back_text x front behind) page.new }
{
    push_cell(page, x, 3);
    push_difference(page, b"'>", front, behind);
    page.push_bytes(b" dB</text>\n");
}

#[tactic(auto, unfolding(crate::specs::Table::leads_text, quoted::specs::Quoted::quoted))]
fn push_leads<const N: usize>(page: &mut Page<N>, x: u32, leads: u32)
    requires { length page.old + 63 ≤ N }
    ensures { Put 63 page.old (leads_text x leads) page.new }
{
    push_cell(page, x, 4);
    push_whole(page, b"'>", leads);
    page.push_bytes(b" azimuths</text>\n");
}

// Words in place of the peak, and neither beam nor front-to-back.
#[tactic(auto, unfolding(crate::specs::Table::none_text, quoted::specs::Quoted::quoted))]
fn push_none<const N: usize>(page: &mut Page<N>, x: u32, words: &[u8])
    requires { (length page.old + 180 ≤ N) × (length words.now ≤ 16) }
    ensures { Put 180 page.old (none_text x words.now) page.new }
{
    push_words(page, x, 1, words);
    push_words(page, x, 2, b"-");
    push_words(page, x, 3, b"-");
}

#[tactic(auto, unfolding(crate::specs::Table::shown_text))]
fn push_shown<const N: usize>(page: &mut Page<N>, x: u32, s: Shown)
    requires { length page.old + 203 ≤ N }
    ensures { Put 203 page.old (shown_text x s) page.new }
{
    push_peak(page, x, s.peak, s.azimuth);
    push_beam(page, x, s.beam);
    push_back(page, x, s.front, s.behind);
}

#[tactic(auto, using(words::proofs::Writing::at_most), unfolding(crate::specs::Table::shape_text, quoted::specs::Quoted::quoted))]
fn push_shape<const N: usize>(page: &mut Page<N>, x: u32, shape: Shape)
    requires { length page.old + 203 ≤ N }
    ensures { Put 203 page.old (shape_text x shape) page.new }
{
    match shape {
        Shape::Silence => push_none(page, x, b"silence"),
        Shape::Floors => push_none(page, x, b"floor all round"),
        Shape::Shown(s) => push_shown(page, x, s),
    }
}

#[tactic(auto, unfolding(crate::specs::Table::column_text))]
fn push_column<const N: usize>(page: &mut Page<N>, x: u32, f: Figures)
    requires { length page.old + 346 ≤ N }
    ensures { Put 346 page.old (column_text x f) page.new }
{
    push_set(page, x, f.heading);
    push_shape(page, x, f.shape);
    push_leads(page, x, f.leads);
}

// What each row and each column is.
#[tactic(auto, unfolding(crate::specs::Table::heads_text, quoted::specs::Quoted::quoted))]
fn push_heads<const N: usize>(page: &mut Page<N>)
    requires { length page.old + 340 ≤ N }
    ensures { Put 340 page.old heads_text page.new }
{
    page.push_bytes(
        b"<path d='M -850 7780 H 8850' stroke='#888' stroke-width='14'/>\n<text x='2600' y='7700'>A</text>\n<text x='6000' y='7700'>B</text>\n",
    );
    page.push_bytes(
        b"<text x='-850' y='8060'>set at</text>\n<text x='-850' y='8370'>peak</text>\n<text x='-850' y='8680'>beam at 3 dB</text>\n",
    );
    page.push_bytes(
        b"<text x='-850' y='8990'>front-to-back</text>\n<text x='-850' y='9300'>leads in</text>\n",
    );
}

// Inner step: the table.
#[tactic(auto, unfolding(crate::specs::Table::table_text))]
pub fn push_table<const N: usize>(page: &mut Page<N>, first: Figures, second: Figures)
    requires { length page.old + 1032 ≤ N }
    ensures { Put 1032 page.old (table_text first second) page.new }
{
    push_heads(page);
    push_column(page, 2600, first);
    push_column(page, 6000, second);
}
