#![tactic(auto)]

// Two masts on one plate: SVG text of two rows in hundredths, with a legend and a table. The first mast is
// thin and black over the second's broad grey, on the scale of the greater peak, which holds both
// (`first-within`, `second-within`, proofs/Laws.antt). The text is `pair_in` (specs/Pair.antt), for any
// numbers.
pub mod drawn;
pub mod told;

ghost use Rattle.std.specs.Prelude.{◌+◌, ◌≤◌, ◌≡◌, length, take, map};
ghost use Rattle.words.specs.Writing.{Put, Wrote};
ghost use Rattle.dial.specs.Kinds.{coded};
ghost use Rattle.pair.specs.Pair.{greater_peak, pair_of, pair_in};

use captions::Heading;
use dial::{Row, coded_row};
use drawn::push_drawn;
use told::{greater_peak, push_told};
use words::page::{Page, put_page};

#[tactic(auto, unfolding(crate::specs::Pair::pair_of, quoted::specs::Quoted::quoted))]
fn push_pair<const N: usize>(
    page: &mut Page<N>,
    first: &Row,
    first_heading: Heading,
    second: &Row,
    second_heading: Heading,
    peak: u32,
)
    requires { (length page.old + 72900 ≤ N) × (peak ≡ greater_peak first.now.numbers second.now.numbers) × (peak ≤ 200000) }
    ensures { Put 72900 page.old (pair_of first.now.numbers first.now.kinds first_heading second.now.numbers second.now.kinds second_heading) page.new }
{
    push_drawn(page, first, second, peak);
    push_told(page, first, first_heading, second, second_heading);
    page.push_bytes(b"</svg>\n");
}

// Writes the picture of two rows from the buffer's start on, and returns its length. A buffer of under
// 131,072 bytes gets nothing, nor do rows one of whose peaks is over 1,000 dBi.
#[tactic(auto, using(words::proofs::Writing::wrote_none), unfolding(crate::specs::Pair::pair_in))]
pub fn pair_of_rows(
    first: &Row,
    first_heading: Heading,
    second: &Row,
    second_heading: Heading,
    out: &mut [u8],
) -> usize
    ensures text { Wrote out.old 0 (pair_in (length out.old) first.now.numbers first.now.kinds first_heading second.now.numbers second.now.kinds second_heading) out.new result }
    // what a caller needs to lend the text on, as `&out[..r]`
    ensures within { (result ≤ length out.new) × (result ≡ length (take result out.new)) }
{
    if out.len() < 131072 {
        return 0;
    }
    let peak = greater_peak(&first.numbers, &second.numbers);
    if 200000 < peak {
        return 0;
    }
    let mut page: Page<72900> = Page::new();
    push_pair(
        &mut page,
        first,
        first_heading,
        second,
        second_heading,
        peak,
    );
    put_page(&page, out)
}

// The same of two rows' numbers, in raised hundredths of dBi, and their kinds by their codes: 0 a level, 1
// a floor, more a silence.
pub fn pair(
    first: &[u32; 360],
    first_kinds: &[u8; 360],
    first_heading: Heading,
    second: &[u32; 360],
    second_kinds: &[u8; 360],
    second_heading: Heading,
    out: &mut [u8],
) -> usize
    ensures text { Wrote out.old 0 (pair_in (length out.old) first.now (map coded first_kinds.now) first_heading second.now (map coded second_kinds.now) second_heading) out.new result }
    ensures within { (result ≤ length out.new) × (result ≡ length (take result out.new)) }
{
    pair_of_rows(
        &coded_row(first, first_kinds),
        first_heading,
        &coded_row(second, second_kinds),
        second_heading,
        out,
    )
}
