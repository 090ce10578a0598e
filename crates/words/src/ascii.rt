// Numbers by their digits, in ASCII.
ghost use Rattle.std.specs.Prelude.{◌≡◌, map, ◌+◌, ◌≤◌, ◌<◌, length};
ghost use Rattle.words.specs.Digits.{digits};
ghost use Rattle.words.specs.Writing.{Put};
ghost use Rattle.words.specs.Numbers.{character, decimal, hexadecimal};

use crate::page::Page;

fn digit(d: u32) -> u8
    requires { d < 16 }
    ensures { result ≡ character d }
{
    if d < 10 {
        48 + (d as u8)
    } else {
        55 + (d as u8)
    }
}

// The last k digits of n. Those before the last are the digits of n / base, with one fewer left.
fn push_digits<const N: usize>(page: &mut Page<N>, n: u32, base: u32, k: usize)
    requires { (length page.old + k ≤ N) × (0 < base) × (base ≤ 16) }
    ensures { Put k page.old (map character (digits base k n)) page.new }
{
    if k > 0 {
        push_digits(page, n / base, base, k - 1);
        page.push(digit(n % base));
    }
}

// A number below 1,000, with no leading zero.
#[tactic(auto, unfolding(crate::specs::Numbers::decimal))]
pub fn push_decimal<const N: usize>(page: &mut Page<N>, n: u32)
    requires { (length page.old + 3 ≤ N) × (n < 1000) }
    ensures { Put 3 page.old (decimal n) page.new }
{
    if n < 10 {
        push_digits(page, n, 10, 1);
    } else if n < 100 {
        push_digits(page, n, 10, 2);
    } else {
        push_digits(page, n, 10, 3);
    }
}

// Eight upper-case hexadecimal digits.
#[tactic(auto, unfolding(crate::specs::Numbers::hexadecimal))]
pub fn push_hexadecimal<const N: usize>(page: &mut Page<N>, n: u32)
    requires { length page.old + 8 ≤ N }
    ensures { Put 8 page.old (hexadecimal n) page.new }
{
    push_digits(page, n, 16, 8);
}
