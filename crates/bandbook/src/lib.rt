#![tactic(auto)]

// Document 02, card 8: the band book, which says which station serves which frequency. A book is a
// list of words, three a row: low kHz, high kHz (not included) and station id. `book` judges one and
// `station_for` looks a kHz up in it. Both take any words, and answer what their definitions do
// (`book_of` and `station_for`, specs/Book.antt), by counting for each kHz the rows that cover it.
//
// Proved of the definitions, in the words of specs/Meaning.antt:
//
// - a book is accepted just where it is a good one: whole rows, at most 64, none bad, and each kHz
//   of the span covered just once (`good_book`, proofs/GoodBook.antt);
// - in a good book one row, and no other, covers a kHz of the span, and the lookup answers that
//   row's id (`one-station`, proofs/OneStation.antt);
// - a refusal's place is the first bad row, or the lowest kHz that no row covers or several do
//   (`reported`, proofs/Reported.antt);
// - the same rows in another order answer the same, but for the place of a bad row (`order_free`,
//   proofs/Order.antt).
mod coverage;
mod rows;

ghost use Rattle.std.specs.Prelude.{◌≡◌};
ghost use Rattle.bandbook.specs.Answers.{judged, found};
ghost use Rattle.bandbook.specs.Rows.{rows_in};
ghost use Rattle.bandbook.specs.Book.{rows_answer, book_of, in_span, looked_up, station_for};

use crate::coverage::{check_khz, station_at};
use crate::rows::{FROM_KHZ, TO_KHZ, first_bad_row};
use answers::Refusal;

// Why a call is refused, and where: the bad row, or the bad kHz. Words that aren't whole rows and a
// kHz that is looked up out of the span have no place.
#[derive(Clone, Copy, Debug, PartialEq, Eq)]
pub struct Refused {
    pub refusal: Refusal,
    pub place: Option<u32>,
}

impl Refused {
    pub(crate) fn at(refusal: Refusal, place: u32) -> Refused
        ensures { result ≡ record { refusal = refusal; place = Some place } }
    {
        Refused {
            refusal,
            place: Some(place),
        }
    }
}

// Refuses for what there is against whole rows: the first bad row, then the lowest bad kHz.
#[tactic(auto, unfolding(crate::specs::Book::row_fault))]
fn check_rows(words: &[u32]) -> Result<(), Refused>
    ensures { judged result ≡ rows_answer (rows_in words.now) }
{
    if let Some(row) = first_bad_row(words) {
        return Err(Refused::at(Refusal::Row, row));
    }
    check_khz(words)
}

// Whether the book of these words, three a row, is a good one.
#[tactic(auto, unfolding(crate::specs::Book::book_of))]
pub fn book(words: &[u32]) -> Result<(), Refused>
    ensures { judged result ≡ book_of words.now }
{
    if words.len() % 3 != 0 {
        return Err(Refused {
            refusal: Refusal::Space,
            place: None,
        });
    }
    check_rows(words)
}

#[tactic(auto, unfolding(crate::specs::Book::in_span))]
fn in_span(khz: u32) -> bool
    ensures { result ≡ in_span khz }
{
    (FROM_KHZ <= khz) & (khz < TO_KHZ)
}

// The station for a kHz, in a book that is good.
#[tactic(auto, unfolding(crate::specs::Book::looked_up))]
fn looked_up(words: &[u32], khz: u32) -> Result<u32, Refused>
    ensures { found result ≡ looked_up (rows_in words.now) khz }
{
    if !in_span(khz) {
        return Err(Refused {
            refusal: Refusal::Row,
            place: None,
        });
    }
    Ok(station_at(words, khz))
}

// The station that serves a kHz; a bad book is refused as `book` refuses it, and only then the kHz.
#[tactic(auto, unfolding(crate::specs::Book::station_for, crate::specs::Book::after_book))]
pub fn station_for(words: &[u32], khz: u32) -> Result<u32, Refused>
    ensures { found result ≡ station_for words.now khz }
{
    book(words)?;
    looked_up(words, khz)
}
