#![tactic(auto)]

// Numbers after their words, as pictures have them: whole ones (`whole`), hundredths with two decimals
// (`reading`), and whole dBi (`dbi`; specs/Writing.antt), on a page.
ghost use Rattle.std.specs.Prelude.{◌+◌, ◌≤◌, length};
ghost use Rattle.words.specs.Writing.{Put};
ghost use Rattle.labels.specs.Writing.{whole, reading, dbi};

use hundredths::decimals::push_raised;
use numerals::push_numeral;
use words::page::Page;

// Inner step: words and a whole number.
#[tactic(auto, unfolding(crate::specs::Writing::whole))]
pub fn push_whole<const N: usize>(page: &mut Page<N>, words: &[u8], n: u32)
    requires { length page.old + (length words.now + 10) ≤ N }
    ensures { Put (length words.now + 10) page.old (whole words.now n) page.new }
{
    page.push_bytes(words);
    push_numeral(page, n);
}

// Inner step: words and raised hundredths.
#[tactic(auto, unfolding(crate::specs::Writing::reading))]
pub fn push_reading<const N: usize>(page: &mut Page<N>, words: &[u8], raised: u32)
    requires { length page.old + (length words.now + 14) ≤ N }
    ensures { Put (length words.now + 14) page.old (reading words.now raised) page.new }
{
    page.push_bytes(words);
    push_raised(page, raised);
}

// Inner step: raised hundredths as whole dBi.
#[tactic(auto, unfolding(crate::specs::Writing::dbi, quoted::specs::Quoted::quoted))]
pub fn push_dbi<const N: usize>(page: &mut Page<N>, raised: u32)
    requires { length page.old + 11 ≤ N }
    ensures { Put 11 page.old (dbi raised) page.new }
{
    if raised < 100000 {
        push_whole(page, b"-", (100000 - raised) / 100);
    } else {
        push_numeral(page, (raised - 100000) / 100);
    }
}
