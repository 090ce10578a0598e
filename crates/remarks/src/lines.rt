// The sentences, each a line.
ghost use Rattle.std.specs.Prelude.{◌+◌, ◌≤◌, length};
ghost use Rattle.words.specs.Writing.{Put};
ghost use Rattle.remarks.specs.Remarks.{band_remark, directions, limit_remark};

use numerals::push_numeral;
use words::page::Page;

// The remark on a plate off the design band, if it is.
#[tactic(auto, using(words::proofs::Writing::put_none), unfolding(crate::specs::Remarks::band_remark, quoted::specs::Quoted::quoted))]
pub(crate) fn push_band<const N: usize>(page: &mut Page<N>, off: bool)
    requires { length page.old + 59 ≤ N }
    ensures { Put 59 page.old (band_remark off) page.new }
{
    if off {
        page.push_bytes(b"all 360 directions are a floor: MHz is off the design band\n");
    }
}

#[tactic(auto, using(words::proofs::Writing::at_most), unfolding(crate::specs::Remarks::directions, quoted::specs::Quoted::quoted))]
fn push_directions<const N: usize>(page: &mut Page<N>, n: u32)
    requires { length page.old + 15 ≤ N }
    ensures { Put 15 page.old (directions n) page.new }
{
    if n == 1 {
        page.push_bytes(b" direction is");
    } else {
        page.push_bytes(b" directions are");
    }
}

// The remark on n directions at the limit, if there are any.
#[tactic(auto, using(words::proofs::Writing::put_none), unfolding(crate::specs::Remarks::limit_remark, crate::specs::Remarks::limit_line, quoted::specs::Quoted::quoted))]
pub(crate) fn push_limit<const N: usize>(page: &mut Page<N>, n: u32)
    requires { length page.old + 99 ≤ N }
    ensures { Put 99 page.old (limit_remark n) page.new }
{
    if n != 0 {
        push_numeral(page, n);
        push_directions(page, n);
        page.push_bytes(b" at the limit of 30 dB below the peak: the gain there is that or less\n");
    }
}
