// Hundredths as text, with two decimals.
ghost use Rattle.std.specs.Prelude.{◌+◌, ◌≤◌, pos, length};
ghost use Rattle.words.specs.Writing.{Put};
ghost use Rattle.hundredths.specs.Decimals.{two_decimals};
ghost use Rattle.hundredths.specs.Raised.{lowered};

use numerals::push_numeral;
use words::page::Page;

// Inner step: n hundredths, none below 0, as losses are.
pub fn push_hundredths<const N: usize>(page: &mut Page<N>, n: u32)
    requires { length page.old + 11 ≤ N }
    ensures { Put 11 page.old (two_decimals (pos n)) page.new }
{
    push_numeral(page, n / 100);
    page.push(b'.');
    page.push(48 + ((n / 10 % 10) as u8));
    page.push(48 + ((n % 10) as u8));
}

// Inner step: hundredths of either sign, raised by 100,000.
#[tactic(auto, using(crate::proofs::Raised::lowered_from))]
pub fn push_raised<const N: usize>(page: &mut Page<N>, raised: u32)
    requires { length page.old + 12 ≤ N }
    ensures { Put 12 page.old (two_decimals (lowered raised)) page.new }
{
    if raised >= 100000 {
        push_hundredths(page, raised - 100000);
    } else {
        page.push(b'-');
        push_hundredths(page, 100000 - raised);
    }
}
