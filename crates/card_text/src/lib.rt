#![tactic(auto)]

// The sentence of a card's first mistake, or of a remark: its line, its field, and what is wrong with
// which word. `sentence` takes any text and writes `sentence_of` (specs/Sentences.antt), which has the
// words of each mistake that crate `card` finds; specs/Faults.antt and specs/Limits.antt of
// `card_faults` have them one by one. 256 bytes are enough for each.
pub mod numbers;
mod sentences;

ghost use Rattle.std.specs.Prelude.{◌≡◌, ◌≤◌, length, take};
ghost use Rattle.answers.specs.Outcome.{outcome};
ghost use Rattle.words.specs.Writing.{Wrote};
ghost use Rattle.card_text.specs.Sentences.{sentence_of, sentence_in, line_in};

use crate::sentences::{push_mistake, push_remarked};
use answers::Refusal;
use card::kind::kind_in;
use card::read;
use words::page::{Page, put_page};

// The sentence, on a page of its own.
#[tactic(auto, using(words::proofs::Writing::page_has), unfolding(crate::specs::Sentences::sentence_of, crate::specs::Sentences::spoken))]
fn page_of(text: &[u8]) -> Page<256>
    ensures { (result ≡ sentence_of text.now) × (length result ≤ 182) }
{
    let mut page: Page<256> = Page::new();
    match read(text) {
        Ok(r) => push_remarked(&mut page, text, r.station.mode, r.mhz),
        Err(m) => push_mistake(&mut page, text, kind_in(text), m),
    }
    page
}

// Writes the sentence of a card over the first of the lent bytes, and answers its length: 0 for a good
// card without a remark. Refused under 8 where they are under 256.
#[tactic(auto, unfolding(crate::specs::Sentences::sentence_in))]
pub fn sentence(text: &[u8], out: &mut [u8]) -> Result<usize, Refusal>
    ensures { (outcome result, out.new) ≡ sentence_in text.now out.old }
{
    if out.len() < 256 {
        return Err(Refusal::Space);
    }
    Ok(put_page(&page_of(text), out))
}

// The sentence and a line feed, for a program: nothing for a good card without a remark, and nothing
// into a buffer of under 256 bytes.
#[tactic(auto, using(words::proofs::Writing::wrote_none), unfolding(crate::specs::Sentences::line_in))]
pub fn sentence_line(text: &[u8], out: &mut [u8]) -> usize
    ensures line { Wrote out.old 0 (line_in (length out.old) text.now) out.new result }
    // what a caller needs to lend the line on, as `&out[..r]`
    ensures within { (result ≤ length out.new) × (result ≡ length (take result out.new)) }
{
    if out.len() < 256 {
        return 0;
    }
    let mut page = page_of(text);
    if page.text().is_empty() {
        return 0;
    }
    page.push(b'\n');
    put_page(&page, out)
}
