// The pieces of sentences.
ghost use Rattle.std.specs.Prelude.{◌≡◌, [], ◌∷◌, ◌++◌, ◌+◌, ◌≤◌, length};
ghost use Rattle.words.specs.Writing.{Put};
ghost use Rattle.card_words.specs.Pieces.{shown, capped, told};

use numerals::push_numeral;
use words::page::Page;

// A word as typed, its first 40 bytes where it is longer.
// Inner step: a sentence's page has room for it.
#[tactic(auto, using(words::proofs::Writing::at_most), unfolding(crate::specs::Pieces::shown))]
pub fn push_shown<const N: usize>(page: &mut Page<N>, word: &[u8])
    requires { length page.old + 42 ≤ N }
    ensures { Put 42 page.old (shown word.now) page.new }
{
    if word.len() <= 40 {
        page.push_bytes(word);
    } else {
        page.push_bytes(&word[..40]);
        page.push_bytes(b"..");
    }
}

// A number as 32 bits have it.
pub fn capped(n: usize) -> u32
    ensures { result ≡ capped n }
{
    u32::try_from(n).unwrap_or(u32::MAX)
}

// A number in its digits.
// Inner step: a sentence's page has room for it.
#[tactic(auto, unfolding(crate::specs::Pieces::told))]
pub fn push_number<const N: usize>(page: &mut Page<N>, n: usize)
    requires { length page.old + 10 ≤ N }
    ensures { Put 10 page.old (told n) page.new }
{
    push_numeral(page, capped(n));
}

// A colon, a word, and what is said of it.
// Inner step: a sentence's page has room for it, and what is said has at most 46 bytes.
pub fn push_said<const N: usize>(page: &mut Page<N>, word: &[u8], said: &[u8])
    requires { (length page.old + 90 ≤ N) × (length said.now ≤ 46) }
    ensures { Put 90 page.old ((58 ∷ 32 ∷ []) ++ shown word.now ++ said.now) page.new }
{
    page.push_bytes(b": ");
    push_shown(page, word);
    page.push_bytes(said);
}

// A number with what is said before and after it.
// Inner step: a sentence's page has room for it, and what is said has at most 32 and 22 bytes.
pub fn push_counted<const N: usize>(page: &mut Page<N>, before: &[u8], n: usize, after: &[u8])
    requires { (length page.old + 64 ≤ N) × (length before.now ≤ 32) × (length after.now ≤ 22) }
    ensures { Put 64 page.old (before.now ++ told n ++ after.now) page.new }
{
    page.push_bytes(before);
    push_number(page, n);
    page.push_bytes(after);
}

// Two numbers, each with what is said before it.
// Inner step: a sentence's page has room for it, and what is said has at most 32 and 22 bytes.
pub fn push_counts<const N: usize>(
    page: &mut Page<N>,
    before: &[u8],
    n: usize,
    between: &[u8],
    m: usize,
)
    requires { (length page.old + 74 ≤ N) × (length before.now ≤ 32) × (length between.now ≤ 22) }
    ensures { Put 74 page.old (before.now ++ told n ++ between.now ++ told m) page.new }
{
    push_counted(page, before, n, between);
    push_number(page, m);
}
