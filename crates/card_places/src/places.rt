// Lines and words of a text by the line's number.
ghost use Rattle.std.specs.Prelude.{◌≡◌, ◌-◌, length};
ghost use Rattle.card.specs.Card as Card;
ghost use Rattle.lines.specs.Words.{words_of};

use card::line;
use card::line::{find, number_count};

// What stands in the line of this number, counted from 1; nothing, where there is none.
fn line_at(text: &[u8], n: usize) -> &[u8]
    ensures { words_of result.now ≡ Card.line_at (Card.card_of text.now) n }
{
    if n == 0 {
        return &[];
    }
    match find(text, |line| line.number == n) {
        Some(line) => line.words,
        None => &[],
    }
}

// How many numbers stand in a line after the field's name.
pub fn numbers_in(text: &[u8], n: usize) -> usize
    ensures { result ≡ length (Card.line_at (Card.card_of text.now) n) - 1 }
{
    number_count(line_at(text, n))
}

// The word of index k in a line.
pub fn word_at(text: &[u8], n: usize, k: usize) -> &[u8]
    ensures { result.now ≡ Card.word (Card.line_at (Card.card_of text.now) n) k }
{
    line::word_at(line_at(text, n), k)
}
