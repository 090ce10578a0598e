// The legend of a plate with two masts.
ghost use Rattle.std.specs.Prelude.{◌+◌, ◌≤◌, length};
ghost use Rattle.words.specs.Writing.{Put};
ghost use Rattle.table.specs.Legend.{legend_text, dashed_text};

use captions::{push_name, push_where};
use words::page::Page;

// Inner step: the masts' sample strokes and names.
#[tactic(auto, unfolding(crate::specs::Legend::legend_text, quoted::specs::Quoted::quoted))]
pub fn push_legend<const N: usize>(page: &mut Page<N>, first: u32, second: u32)
    requires { length page.old + 310 ≤ N }
    ensures { Put 310 page.old (legend_text first second) page.new }
{
    page.push_bytes(
        b"<path d='M -850 -300 H -150' stroke='#000' stroke-width='36'/>\n<path d='M -850 80 H -150' stroke='#aaa' stroke-width='100'/>\n",
    );
    page.push_bytes(b"<text x='0' y='-210'>A: ");
    push_name(page, first);
    page.push_bytes(b"</text>\n<text x='0' y='170'>B: ");
    push_name(page, second);
    page.push_bytes(b"</text>\n");
}

// Inner step: what dashes mean, where there are any.
#[tactic(auto, using(words::proofs::Writing::at_most), unfolding(crate::specs::Legend::dashed_text, quoted::specs::Quoted::quoted))]
pub fn push_dashed<const N: usize>(page: &mut Page<N>, floors: bool)
    requires { length page.old + 70 ≤ N }
    ensures { Put 70 page.old (dashed_text floors) page.new }
{
    push_where(
        page,
        floors,
        b"<text x='8850' y='7370' text-anchor='end'>dashed: floor</text>\n",
    );
}
