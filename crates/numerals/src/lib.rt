#![tactic(auto)]

// Whole numbers as people write them: `numeral` (specs/Numeral.antt), decimal digits with no leading
// zero. What is written reads back as the number (`numeral_reads`), in at most ten digits
// (`numeral-length`; proofs/Laws.antt).
ghost use Rattle.std.specs.Prelude.{◌≡◌, ◌+◌, ◌%◌, ◌≤◌, length};
ghost use Rattle.words.specs.Writing.{Put};
ghost use Rattle.numerals.specs.Numeral.{numeral_in, numeral};

use words::page::Page;

// The character of the last digit.
fn ones(n: u32) -> u8
    ensures { result ≡ 48 + n % 10 }
{
    48 + ((n % 10) as u8)
}

// A number in at most k digits; one that has more keeps its last k.
fn push_up_to<const N: usize>(page: &mut Page<N>, n: u32, k: usize)
    requires { length page.old + k ≤ N }
    ensures { Put k page.old (numeral_in k n) page.new }
{
    if k == 0 {
        return;
    }
    if n < 10 {
        page.push(ones(n));
    } else {
        push_up_to(page, n / 10, k - 1);
        page.push(ones(n));
    }
}

// Inner step: a number in its own digits.
pub fn push_numeral<const N: usize>(page: &mut Page<N>, n: u32)
    requires { length page.old + 10 ≤ N }
    ensures { Put 10 page.old (numeral n) page.new }
{
    push_up_to(page, n, 10);
}
