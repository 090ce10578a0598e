// A book's rows, three words each, and the first that is bad.
ghost use Rattle.std.specs.Prelude.{◌≡◌, ◌/◌, ◌<◌, length};
ghost use Rattle.bandbook.specs.Rows.{rows_in, row, row_ok, bad_row};
ghost use Rattle.bandbook.specs.Book.{first_bad_row};

// The span of a book: its first kHz, and the one after its last.
pub(crate) const FROM_KHZ: u32 = 2000;

pub(crate) const TO_KHZ: u32 = 30000;

// The most rows that a book may have.
const ROWS: usize = 64;

// From low kHz up to, not including, high kHz: a station's id.
#[derive(Clone, Copy)]
pub(crate) struct Row {
    pub low: u32,
    pub high: u32,
    pub id: u32,
}

#[tactic(auto, using(crate::proofs::RowWords::row_words))]
pub(crate) fn row_at(words: &[u32], i: usize) -> Row
    requires { i < length words.now / 3 }
    ensures { result ≡ row (rows_in words.now) i }
{
    let at = 3 * i;
    Row {
        low: words[at],
        high: words[at + 1],
        id: words[at + 2],
    }
}

// The row of three words.
#[tactic(auto, unfolding(crate::specs::Rows::rows_in), using(crate::proofs::RowWords::row_of_three))]
pub(crate) fn row_of(words: &[u32]) -> Row
    requires { length words.now ≡ 3 }
    ensures { result ≡ row (rows_in words.now) 0 }
{
    Row {
        low: words[0],
        high: words[1],
        id: words[2],
    }
}

#[tactic(auto, unfolding(crate::specs::Rows::row_ok))]
fn row_ok(row: Row) -> bool
    ensures { result ≡ row_ok row }
{
    (row.low < row.high)
        & (FROM_KHZ <= row.low)
        & (row.high <= TO_KHZ)
        & (0 < row.id)
        & (row.id <= 65535)
}

// Whether row i is a 65th or later one, or bad in itself.
#[tactic(auto, unfolding(crate::specs::Rows::bad_row))]
fn bad_row(words: &[u32], i: usize) -> bool
    requires { i < length words.now / 3 }
    ensures { result ≡ bad_row (rows_in words.now) i }
{
    (ROWS <= i) | !row_ok(row_at(words, i))
}

pub(crate) fn first_bad_row(words: &[u32]) -> Option<u32>
    ensures { result ≡ first_bad_row (rows_in words.now) }
{
    let i = (0..words.len() / 3).find(|&i| bad_row(words, i))?;
    Some(i as u32)
}
