#![tactic(auto)]

// Two rows compared in words, each its 360 numbers, raised hundredths, and its kinds: which mast leads at
// the base, how wide each beam is, what lies behind, in how many azimuths each leads (`lines_of`,
// specs/Lines.antt; what is read off a row: `mast_of`, specs/Masts.antt).
pub mod lines;
pub mod masts;

ghost use Rattle.std.specs.Prelude.{◌+◌, ◌≤◌, ◌<◌, length};
ghost use Rattle.words.specs.Writing.{Put};
ghost use Rattle.comparison.specs.Lines.{lines_of};

use dial::Row;
use figures::leads_over;
use lines::{push_base, push_masts, push_round};
use masts::{at_base, mast_of};
use words::page::Page;

// Inner step: the lines of two rows.
#[tactic(auto, using(figures::proofs::Laws::leads_sum), unfolding(crate::specs::Lines::lines_of))]
pub fn push_lines<const N: usize>(page: &mut Page<N>, base: u32, a: &Row, b: &Row)
    requires { (length page.old + 540 ≤ N) × (base < 360) }
    ensures { Put 540 page.old (lines_of base a.now.numbers a.now.kinds b.now.numbers b.now.kinds) page.new }
{
    let v = base as usize;
    push_base(page, base, at_base(a, b, v), at_base(b, a, v));
    push_masts(page, mast_of(b'A', a), mast_of(b'B', b));
    let first_leads = leads_over(a, &b.numbers);
    let second_leads = leads_over(b, &a.numbers);
    push_round(page, first_leads as u32, second_leads as u32);
}
