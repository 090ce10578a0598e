// How many rows cover a kHz, and which. The rows' edges are few: between one edge and the next the
// same rows cover every kHz, so the search for the lowest bad kHz hops from edge to edge.
ghost use Rattle.std.specs.Prelude.{◌≡◌, ◌<◌};
ghost use Rattle.bandbook.specs.Rows.{rows_in};
ghost use Rattle.bandbook.specs.Coverage.{covers, one, station_at};
ghost use Rattle.bandbook.specs.Stretch.{Nearer, Even};
ghost use Rattle.bandbook.specs.Answers.{judged};
ghost use Rattle.bandbook.specs.Book.{khz_answer};

use crate::Refused;
use crate::rows::{FROM_KHZ, Row, TO_KHZ, row_of};
use answers::Refusal;

// From some kHz up to, not including, `end`: this many rows cover each.
#[derive(Clone, Copy)]
pub(crate) struct Stretch {
    pub rows: usize,
    pub end: u32,
}

#[tactic(auto, unfolding(crate::specs::Coverage::covers))]
fn is_covered(khz: u32, row: Row) -> bool
    ensures { result ≡ covers khz row }
{
    (row.low <= khz) & (khz < row.high)
}

#[tactic(auto, unfolding(crate::specs::Coverage::one))]
fn count_one(khz: u32, row: Row) -> usize
    ensures { result ≡ one khz row }
{
    if is_covered(khz, row) { 1 } else { 0 }
}

// The edge where it lies after the kHz and before `end`, else `end`.
fn nearer_edge(khz: u32, edge: u32, end: u32) -> u32
    requires { khz < end }
    ensures { Nearer khz edge end result }
{
    if edge <= khz {
        return end;
    }
    if edge < end { edge } else { end }
}

// How many rows cover a kHz, and up to where as many do: no edge lies between.
fn stretch_from(words: &[u32], khz: u32) -> Stretch
    requires { khz < 30000 }
    ensures { Even (rows_in words.now) khz result.rows result.end }
{
    let mut rows: usize = 0;
    let mut end: u32 = TO_KHZ;
    for words in words.chunks_exact(3) {
        let row = row_of(words);
        rows += count_one(khz, row);
        end = nearer_edge(khz, row.high, nearer_edge(khz, row.low, end));
    }
    Stretch { rows, end }
}

// Refuses the lowest kHz that no row or several rows cover.
pub(crate) fn check_khz(words: &[u32]) -> Result<(), Refused>
    ensures { judged result ≡ khz_answer (rows_in words.now) }
{
    let mut khz: u32 = FROM_KHZ;
    // A step is a whole stretch.
    while khz < TO_KHZ {
        let stretch = stretch_from(words, khz);
        if stretch.rows == 0 {
            return Err(Refused::at(Refusal::Gap, khz));
        }
        if 1 < stretch.rows {
            return Err(Refused::at(Refusal::Overlap, khz));
        }
        khz = stretch.end;
    }
    Ok(())
}

// The id of the first row that covers the kHz, 0 where there is none.
pub(crate) fn station_at(words: &[u32], khz: u32) -> u32
    ensures { result ≡ station_at (rows_in words.now) khz }
{
    let row = words
        .chunks_exact(3)
        .find(|words| is_covered(khz, row_of(words)));
    match row {
        Some(words) => row_of(words).id,
        None => 0,
    }
}
