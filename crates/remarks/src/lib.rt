#![tactic(auto)]

// Remarks on a plate, for people: from the 237 bytes that `plate` reads to a line for each thing that
// its reader could take for another, for any bytes. The text is `remarks_of` (specs/Remarks.antt): that
// all 360 directions are a floor because MHz is off the design band, and how many directions are at the
// limit of 30 dB below the peak, which are levels. A plate that is refused has none. `off_band_gain`
// (proofs/OffBand.antt) and `limit-is-counted` (proofs/Limit.antt) say what the two mean of the maximum
// gain and of the pattern.
mod floors;
mod limits;
mod lines;

ghost use Rattle.std.specs.Prelude.{◌≡◌, ◌+◌, ◌≤◌, length, take};
ghost use Rattle.words.specs.Writing.{Put, Wrote};
ghost use Rattle.request.specs.Request.{station_in};
ghost use Rattle.plate_text.specs.Plate.{gain_at};
ghost use Rattle.remarks.specs.Directions.{relative_at};
ghost use Rattle.remarks.specs.Remarks.{by_ratio, off_band, row_remarks, plate_remarks, remarks_of, remarks_in};

use floats::range::is_between;
use floors::all_floors;
use limits::limits;
use lines::{push_band, push_limit};
use model::table::blank_table;
use model::types::{AntennaType, jant};
use plate_text::row::asked_row;
use request::{Request, prepare, station_of};
use words::page::{Page, put_page};

// Whether the station in the first 225 bytes of 237 is of mode 1.
#[tactic(auto, unfolding(crate::specs::Remarks::by_ratio))]
fn by_ratio(input: &[u8]) -> bool
    ensures { result ≡ by_ratio (station_in input.now) }
{
    station_of(input).is_ok_and(|s| s.mode == 1)
}

// Whether the ratio of operating to design MHz is one that no three gains cover.
#[tactic(auto, using(std::proofs::lemmas::Bool::Decides::nat_tests), unfolding(crate::specs::Remarks::off_band, interpolation::specs::Interpolation::ratio_ok, model::specs::Types::type_ok))]
fn off_band(parm: [f32; 20]) -> bool
    ensures { result ≡ off_band parm }
{
    let fr = parm[4] / parm[7];
    match AntennaType::try_from(jant(parm[1])) {
        Ok(AntennaType::Multiband) => !is_between(fr, 0.7, 1.4),
        _ => !is_between(fr, 0.85, 1.2),
    }
}

// The remarks on an accepted row.
#[tactic(auto, unfolding(crate::specs::Remarks::row_remarks))]
fn put_remarks<const N: usize>(page: &mut Page<N>, off: bool, q: Request, table: &[f32])
    requires { length page.old + 256 ≤ N }
    ensures { Put 256 page.old (row_remarks off (gain_at q table.now) (relative_at q table.now)) page.new }
{
    push_band(page, off & all_floors(q, table));
    push_limit(page, limits(q, table));
}

// The remarks on the row that is asked for.
#[tactic(auto, using(crate::proofs::Steps::remarks_of_row, crate::proofs::Steps::remarked_accepted))]
fn put_row<const N: usize>(page: &mut Page<N>, ratio: bool, q: Request, table: &[f32])
    requires { length page.old + 256 ≤ N }
    ensures { Put 256 page.old (plate_remarks ratio q table.now) page.new }
{
    match asked_row(q, table) {
        Err(_) => {}
        Ok(_) => put_remarks(page, ratio & off_band(q.parm), q, table),
    }
}

// All remarks.
#[tactic(auto, using(crate::proofs::Steps::remarks_of_request, crate::proofs::Steps::remarked_accepted))]
fn put_text<const N: usize>(page: &mut Page<N>, input: &[u8])
    requires { length page.old + 256 ≤ N }
    ensures { Put 256 page.old (remarks_of input.now) page.new }
{
    let mut table = blank_table();
    match prepare(input, &mut table) {
        Err(_) => {}
        Ok(request) => put_row(page, by_ratio(input), request, &table),
    }
}

// Writes the remarks on the plate of this input from the buffer's start on, and returns their length; a
// buffer of under 256 bytes gets nothing.
#[tactic(auto, using(words::proofs::Writing::wrote_none), unfolding(crate::specs::Remarks::remarks_in))]
pub fn remarks(input: &[u8], out: &mut [u8]) -> usize
    ensures text { Wrote out.old 0 (remarks_in (length out.old) input.now) out.new result }
    // what a caller needs to lend the text on, as `&out[..r]`
    ensures within { (result ≤ length out.new) × (result ≡ length (take result out.new)) }
{
    if out.len() < 256 {
        return 0;
    }
    let mut page: Page<256> = Page::new();
    put_text(&mut page, input);
    put_page(&page, out)
}
