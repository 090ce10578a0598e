// The program's output: the text, or the line of the refusal.
ghost use Rattle.std.specs.Prelude.{◌≡◌, ◌≤◌, length, take};
ghost use Rattle.words.specs.Writing.{Wrote};
ghost use Rattle.planet_text.specs.Planet.{output_in};

use crate::planet;
use text::lines::push_refusal;
use words::page::{Page, put_page};

// Writes the program's output for this input from the buffer's start on, and returns its length; a
// buffer of under 8,960 bytes gets nothing.
pub fn planet_output(input: &[u8], text: &mut [u8]) -> usize
    ensures text { Wrote text.old 0 (output_in (length text.old) input.now) text.new result }
    // what a caller needs to lend the text on, as `&text[..r]`
    ensures within { (result ≤ length text.new) × (result ≡ length (take result text.new)) }
{
    if text.len() < 8960 {
        return 0;
    }
    match planet(input, text) {
        Err(r) => {
            let mut page: Page<12> = Page::new();
            push_refusal(&mut page, r);
            put_page(&page, text)
        }
        Ok(n) => n,
    }
}
