#![tactic(auto)]

// Text that people type, by lines and words. A text starts after its byte-order mark, if it has one
// (`start_of`); a line ends at a line feed or at the text's end (`lines_of`, specs/Lines.antt); a
// line's words are what stands between blanks before a remark (`words_of`, specs/Words.antt). Every
// call takes any bytes and any index.
//
// Proved of the definitions: `lines_more` and `lines-last` walk along a text's lines by `line_end`
// (proofs/Laws.antt). A remark, blanks at a line's end and Windows' line ends change no word
// (`words-remark`, `words-blank`, `windows_words`), nor does the mark (`unmarked-mark`;
// proofs/Spellings.antt).
mod run;

ghost use Rattle.std.specs.Prelude.{◌≡◌, length};
ghost use Rattle.lines.specs.Pieces.{end_from};
ghost use Rattle.lines.specs.Lines.{is_line_feed, start_of};
ghost use Rattle.lines.specs.Words.{is_blank, runs_of, words_of, IsWord};
ghost use Rattle.lines.specs.Inner.{is_filled, StartsAfter};
ghost use Rattle.lines.specs.Alike.{alike};

use crate::run::{Stop, run_end};

// The bytes from one index up to another.
#[derive(Clone, Copy)]
pub struct Span {
    pub from: usize,
    pub to: usize,
}

// Whether two texts are the same.
#[tactic(auto, using(crate::proofs::Laws::alike_is))]
pub fn same(a: &[u8], b: &[u8]) -> bool
    ensures { result ≡ alike a.now b.now }
{
    a == b
}

// Where a text starts: 3 after a byte-order mark, or 0.
#[tactic(auto, using(crate::proofs::Laws::mark_starts), unfolding(crate::specs::Lines::start_of))]
pub fn text_start(text: &[u8]) -> usize
    ensures { result ≡ start_of text.now }
{
    if text.starts_with(&[0xEF, 0xBB, 0xBF]) {
        3
    } else {
        0
    }
}

// Where the line ends that has index `at` in it: at its line feed, or at the text's end.
pub fn line_end(text: &[u8], at: usize) -> usize
    ensures { result ≡ end_from is_line_feed text.now at }
{
    run_end(text, at, Stop::LineFeed)
}

// Where the word after the one at `at` starts.
fn next_word(s: &[u8], at: usize) -> usize
    ensures { result ≡ end_from is_filled s.now (end_from is_blank s.now at) }
{
    run_end(s, run_end(s, at, Stop::Blank), Stop::Filled)
}

// Where the word of index k starts in a line without its remark.
fn word_start(s: &[u8], k: usize) -> usize
    ensures { StartsAfter s.now k result }
{
    let mut at = run_end(s, 0, Stop::Filled);
    for _ in 0..k {
        if s.len() <= at {
            return at;
        }
        at = next_word(s, at);
    }
    at
}

// How many words stand in a line without its remark.
fn run_count(s: &[u8]) -> usize
    ensures { result ≡ length (runs_of s.now) }
{
    let mut n: usize = 0;
    let mut at = run_end(s, 0, Stop::Filled);
    // A step is a whole word.
    while at < s.len() {
        at = next_word(s, at);
        n += 1;
    }
    n
}

// How many words a line has.
#[tactic(auto, using(crate::proofs::Starts::bare_length, crate::proofs::Starts::bare_words))]
pub fn word_count(line: &[u8]) -> usize
    ensures { result ≡ length (words_of line.now) }
{
    let end = run_end(line, 0, Stop::Remark);
    run_count(&line[..end])
}

// Where the word of index k stands, counted from 0; past the last word the span is empty.
pub fn word(line: &[u8], k: usize) -> Span
    ensures { IsWord line.now k result }
{
    let end = run_end(line, 0, Stop::Remark);
    let s = &line[..end];
    let from = word_start(s, k);
    let to = run_end(s, from, Stop::Blank);
    Span { from, to }
}
