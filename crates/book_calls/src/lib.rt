#![tactic(auto)]

// The band book as `service` lends it, its answers as one number. `book` and `station_for` take any
// words, and answer what `bandbook` answers of them (specs/Book.antt): a value, a refusal's number under
// kind 3, or its number and place under kind 4.
ghost use Rattle.std.specs.Prelude.{◌≡◌};
ghost use Rattle.answers.specs.Outcome.{number};
ghost use Rattle.bandbook.specs.Answers.{placed};
ghost use Rattle.book_calls.specs.Book.{packed, book_call, station_call};

use bandbook::Refused;
use packed::{refused, refused_at};

// Kind 3 with a refusal's number, or kind 4 with its number and place.
#[tactic(auto, unfolding(crate::specs::Book::packed))]
fn pack(e: Refused) -> u64
    ensures { result ≡ packed (placed (number e.refusal) e.place) }
{
    match e.place {
        None => refused(e.refusal),
        Some(place) => refused_at(e.refusal, place),
    }
}

// `bandbook::book` of rows, three words each: 0 for a good book.
#[tactic(auto, unfolding(crate::specs::Book::book_call, crate::specs::Book::packed))]
pub fn book(rows: &[u32]) -> u64
    ensures { result ≡ book_call rows.now }
{
    match bandbook::book(rows) {
        Ok(()) => 0,
        Err(e) => pack(e),
    }
}

// `bandbook::station_for`: the id of the station for a kHz.
#[tactic(auto, unfolding(crate::specs::Book::station_call, crate::specs::Book::packed))]
pub fn station_for(rows: &[u32], khz: u32) -> u64
    ensures { result ≡ station_call rows.now khz }
{
    match bandbook::station_for(rows, khz) {
        Ok(id) => id as u64,
        Err(e) => pack(e),
    }
}
