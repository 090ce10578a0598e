// The lines of the text, one after the other.
ghost use Rattle.std.specs.Prelude.{◌≡◌, true, ◌+◌, ◌≤◌, ◌<◌, pos, length};
ghost use Rattle.words.specs.Writing.{Put};
ghost use Rattle.hundredths.specs.Raised.{lowered};
ghost use Rattle.planet_lines.specs.Losses.{all_in_span, loss_at};
ghost use Rattle.planet_lines.specs.Text.{whole_line, gain_line, loss_line, lines_to, part_text, header_text, text_of};

use crate::losses::Part;
use floats::rounding::natural;
use hundredths::decimals::{push_hundredths, push_raised};
use model::types::jant;
use numerals::push_numeral;
use words::page::Page;

// A line of a word and a whole number.
#[tactic(auto, unfolding(crate::specs::Text::whole_line))]
fn push_whole<const N: usize>(page: &mut Page<N>, word: &[u8], n: u32)
    requires { length page.old + (length word.now + 11) ≤ N }
    ensures { Put (length word.now + 11) page.old (whole_line word.now n) page.new }
{
    page.push_bytes(word);
    push_numeral(page, n);
    page.push(b'\n');
}

// The line of the greatest gain, from raised hundredths.
fn push_gain_line<const N: usize>(page: &mut Page<N>, raised: u32)
    requires { (length page.old + 18 ≤ N) × (raised ≤ 200000) }
    ensures { Put 18 page.old (gain_line (lowered raised)) page.new }
{
    page.push_bytes(b"GAIN ");
    push_raised(page, raised);
    page.push_bytes(b" dBi");
    page.push(b'\n');
}

// The line of a loss in hundredths.
fn push_loss<const N: usize>(page: &mut Page<N>, angle: u32, loss: u32)
    requires { (length page.old + 15 ≤ N) × (angle < 1000) × (loss ≤ 200000) }
    ensures { Put 12 page.old (loss_line angle (pos loss)) page.new }
{
    push_numeral(page, angle);
    page.push(b' ');
    push_hundredths(page, loss);
    page.push(b'\n');
}

impl Part<'_> {
    // Its 360 lines.
    fn push_losses<const N: usize>(self, page: &mut Page<N>)
        requires { length page.old + 4335 ≤ N }
        ensures { Put 4320 page.old (lines_to (loss_at self.entry.numbers.now) 360) page.new }
    {
        for angle in 0..360 {
            push_loss(page, angle, self.loss_at(angle as usize));
        }
    }

    // The part, by its word.
    #[tactic(auto, unfolding(crate::specs::Text::part_text))]
    fn push<const N: usize>(self, page: &mut Page<N>, word: &[u8])
        requires { length page.old + (length word.now + 4346) ≤ N }
        ensures { Put (length word.now + 4331) page.old (part_text word.now self.entry.numbers.now) page.new }
    {
        push_whole(page, word, 360);
        self.push_losses(page);
    }
}

// The lines before the parts, with the greatest raised hundredths of the horizontal part.
#[tactic(auto, unfolding(crate::specs::Text::header_text, crate::specs::Text::mhz_of, quoted::specs::Quoted::quoted))]
fn push_header<const N: usize>(page: &mut Page<N>, parm: [f32; 20], greatest: u32)
    requires { (length page.old + 56 ≤ N) × (greatest ≤ 200000) }
    ensures { Put 56 page.old (header_text parm (lowered greatest)) page.new }
{
    push_whole(page, b"NAME T", jant(parm[1]));
    push_whole(page, b"FREQUENCY ", natural(parm[4]));
    push_gain_line(page, greatest);
}

// The whole text.
// Inner step: parts that have numbers, all in span.
pub fn push_text<const N: usize>(
    page: &mut Page<N>,
    parm: [f32; 20],
    horizontal: &[f32],
    vertical: &[f32],
)
    requires in_bounds { length page.old + 8960 ≤ N }
    requires horizontal_nonzero { (0 < length horizontal.now) × (all_in_span horizontal.now ≡ true) }
    requires vertical_nonzero { (0 < length vertical.now) × (all_in_span vertical.now ≡ true) }
    ensures { Put 8738 page.old (text_of parm horizontal.now vertical.now) page.new }
{
    let around = Part::new(horizontal);
    push_header(page, parm, around.greatest);
    around.push(page, b"HORIZONTAL ");
    Part::new(vertical).push(page, b"VERTICAL ");
}
