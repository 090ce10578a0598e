#![tactic(auto)]

// The program `dbi` on slices: from the 237 bytes that `plate` reads to lines that people read, for any
// bytes. The text is `text_in` (specs/Dbi.antt): the line of the first refusal, or 360 lines, which are
// those of the plate that crate `shown` shows.
mod lines;

ghost use Rattle.std.specs.Prelude.{◌≡◌, ◌+◌, ◌≤◌, length, take};
ghost use Rattle.words.specs.Writing.{Put, Wrote};
ghost use Rattle.dbi_text.specs.Dbi.{dbi_text, text_in};

use lines::push_entries;
use shown::show;
use text::lines::push_refusal;
use words::page::{Page, put_page};

// The whole text.
#[tactic(auto, using(text::proofs::Laws::printed_refused, text::proofs::Laws::printed_accepted), unfolding(crate::specs::Dbi::dbi_text))]
fn put_text<const N: usize>(page: &mut Page<N>, input: &[u8])
    requires { length page.old + 12240 ≤ N }
    ensures { Put 12240 page.old (dbi_text input.now) page.new }
{
    match show(input) {
        Err(r) => push_refusal(page, r),
        Ok(row) => push_entries(page, &row),
    }
}

// Writes the program's output for this input from the buffer's start on, and returns its length; a
// buffer of under 12,288 bytes gets nothing.
#[tactic(auto, using(words::proofs::Writing::wrote_none), unfolding(crate::specs::Dbi::text_in))]
pub fn dbi(input: &[u8], text: &mut [u8]) -> usize
    ensures text { Wrote text.old 0 (text_in (length text.old) input.now) text.new result }
    // what a caller needs to lend the text on, as `&text[..r]`
    ensures within { (result ≤ length text.new) × (result ≡ length (take result text.new)) }
{
    if text.len() < 12288 {
        return 0;
    }
    let mut page: Page<12240> = Page::new();
    put_text(&mut page, input);
    put_page(&page, text)
}
