#![tactic(auto)]

// The program `plate` on slices: from its whole input to its whole output, for any bytes. The text is
// `text_in` (specs/Plate.antt): the line of the first refusal, or 360 lines, which are those of
// `ccirgain`'s own answers (`lines_are_gains`).
pub mod row;

ghost use Rattle.std.specs.Prelude.{◌≡◌, ◌+◌, ◌≤◌, length, take};
ghost use Rattle.words.specs.Writing.{Put, Wrote};
ghost use Rattle.text.specs.Lines.{lines_to};
ghost use Rattle.plate_text.specs.Plate.{graded_at, row_text, plate_text, text_in};

use antenna::gain::grade;
use model::table::blank_table;
use request::{Request, prepare};
use row::asked_row;
use text::lines::{push_gain, push_refusal};
use words::page::{Page, put_page};

// The lines of a row's numbers, of an antenna whose peak is z6.
fn put_lines<const N: usize>(page: &mut Page<N>, z6: f32, row: &[f32; 360])
    requires { length page.old + 7560 ≤ N }
    ensures { Put 7560 page.old (lines_to (graded_at z6 row.now) 360) page.new }
{
    for v in 0..360 {
        push_gain(page, v as u32, grade(z6, row[v]));
    }
}

// The text of the row that is asked for.
#[tactic(auto, using(crate::proofs::Steps::text_of_row, text::proofs::Laws::printed_refused, text::proofs::Laws::printed_accepted))]
fn put_row<const N: usize>(page: &mut Page<N>, q: Request, table: &[f32])
    requires { length page.old + 7560 ≤ N }
    ensures { Put 7560 page.old (row_text q table.now) page.new }
{
    match asked_row(q, table) {
        Err(r) => push_refusal(page, r),
        Ok(numbers) => put_lines(page, q.antenna.peak.z6, &numbers),
    }
}

// The whole text.
#[tactic(auto, using(crate::proofs::Steps::text_of_request, text::proofs::Laws::printed_refused, text::proofs::Laws::printed_accepted))]
fn put_text<const N: usize>(page: &mut Page<N>, input: &[u8])
    requires { length page.old + 7560 ≤ N }
    ensures { Put 7560 page.old (plate_text input.now) page.new }
{
    let mut table = blank_table();
    match prepare(input, &mut table) {
        Err(r) => push_refusal(page, r),
        Ok(request) => put_row(page, request, &table),
    }
}

// Writes the program's output for this input from the buffer's start on, and returns its length; a
// buffer of under 8,192 bytes gets nothing.
#[tactic(auto, using(words::proofs::Writing::wrote_none), unfolding(crate::specs::Plate::text_in))]
pub fn plate(input: &[u8], text: &mut [u8]) -> usize
    ensures text { Wrote text.old 0 (text_in (length text.old) input.now) text.new result }
    // what a caller needs to lend the text on, as `&text[..r]`
    ensures within { (result ≤ length text.new) × (result ≡ length (take result text.new)) }
{
    if text.len() < 8192 {
        return 0;
    }
    let mut page: Page<7560> = Page::new();
    put_text(&mut page, input);
    put_page(&page, text)
}
