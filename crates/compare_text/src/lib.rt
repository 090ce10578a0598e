#![tactic(auto)]

// Two masts compared in words, on slices: from the 237 bytes of each, as `plate` reads them, and the
// azimuth of the base to the program's whole output, for any bytes. The text is `compare_in`
// (specs/Compare.antt): which mast leads at the base, how wide each beam is, what lies behind, in how
// many azimuths each leads; or a line for each mast that is refused.
ghost use Rattle.std.specs.Prelude.{◌≡◌, ◌+◌, ◌≤◌, ◌<◌, length, take};
ghost use Rattle.words.specs.Writing.{Put, Wrote};
ghost use Rattle.answers.specs.Outcome.{outcome_as};
ghost use Rattle.shown.specs.Plate.{entries_of};
ghost use Rattle.compare_text.specs.Compare.{answers_text, compare_text, compare_in, output_text, output_in};

use answers::Refusal;
use comparison::lines::push_refused;
use comparison::push_lines;
use dial::Row;
use shown::show;
use words::page::{Page, put_page};

// The lines of two plates, or of the refusals.
#[tactic(auto, using(shown::proofs::Rows::numbers_shown, shown::proofs::Rows::kinds_shown), unfolding(crate::specs::Compare::answers_text, crate::specs::Compare::plates_text))]
fn push_answers<const N: usize>(
    page: &mut Page<N>,
    base: u32,
    first: Result<Row, Refusal>,
    second: Result<Row, Refusal>,
)
    requires { (length page.old + 540 ≤ N) × (base < 360) }
    ensures { Put 540 page.old (answers_text base (outcome_as entries_of first) (outcome_as entries_of second)) page.new }
{
    match (first, second) {
        (Ok(a), Ok(b)) => push_lines(page, base, &a, &b),
        (Err(r), Ok(_)) => push_refused(page, b'A', r),
        (Ok(_), Err(s)) => push_refused(page, b'B', s),
        (Err(r), Err(s)) => {
            push_refused(page, b'A', r);
            push_refused(page, b'B', s);
        }
    }
}

// The whole text.
#[tactic(auto, unfolding(crate::specs::Compare::compare_text, quoted::specs::Quoted::quoted))]
fn push_compared<const N: usize>(page: &mut Page<N>, first: &[u8], second: &[u8], base: u32)
    requires { length page.old + 540 ≤ N }
    ensures { Put 540 page.old (compare_text first.now second.now base) page.new }
{
    if base > 359 {
        page.push_bytes(b"base: refused 7\n");
    } else {
        push_answers(page, base, show(first), show(second));
    }
}

// Writes the comparison of two masts from the buffer's start on, and returns its length; a buffer of
// under 2,048 bytes gets nothing.
#[tactic(auto, using(words::proofs::Writing::wrote_none), unfolding(crate::specs::Compare::compare_in))]
pub fn compare(first: &[u8], second: &[u8], base: u32, text: &mut [u8]) -> usize
    ensures text { Wrote text.old 0 (compare_in (length text.old) first.now second.now base) text.new result }
    // what a caller needs to lend the text on, as `&text[..r]`
    ensures within { (result ≤ length text.new) × (result ≡ length (take result text.new)) }
{
    if text.len() < 2048 {
        return 0;
    }
    let mut page: Page<540> = Page::new();
    push_compared(&mut page, first, second, base);
    put_page(&page, text)
}

// The base in two bytes and the 237 of each mast, compared.
#[tactic(auto, unfolding(crate::specs::Compare::output_text, quoted::specs::Quoted::quoted))]
fn push_output<const N: usize>(page: &mut Page<N>, input: &[u8])
    requires { length page.old + 540 ≤ N }
    ensures { Put 540 page.old (output_text input.now) page.new }
{
    if input.len() != 476 {
        page.push_bytes(b"refused 1\n");
    } else {
        let base = u32::from(input[0]) * 256 + u32::from(input[1]);
        push_compared(page, &input[2..239], &input[239..], base);
    }
}

// Writes the output of the program `compare` for its input from the buffer's start on, and returns its
// length; a buffer of under 2,048 bytes gets nothing.
#[tactic(auto, using(words::proofs::Writing::wrote_none), unfolding(crate::specs::Compare::output_in))]
pub fn output(input: &[u8], text: &mut [u8]) -> usize
    ensures text { Wrote text.old 0 (output_in (length text.old) input.now) text.new result }
    ensures within { (result ≤ length text.new) × (result ≡ length (take result text.new)) }
{
    if text.len() < 2048 {
        return 0;
    }
    let mut page: Page<540> = Page::new();
    push_output(&mut page, input);
    put_page(&page, text)
}
