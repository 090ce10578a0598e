#![tactic(auto)]

// The station record as `service` lends it, bytes on one side and 57 words on the other: the mode, then
// the floats' bits. `read` and `write` take any bytes and words, and answer what `station` answers of them
// (specs/Record.antt); a refusal leaves the lent words or bytes as they were.
ghost use Rattle.std.specs.Prelude.{◌≡◌, length};
ghost use Rattle.packed.specs.Lists.{left};
ghost use Rattle.record_calls.specs.Record.{station_words, station_in, read_call, write_call};

use answers::Refusal;
use packed::lent::{floats_of, station_at};
use packed::status;
use station::Station;
use words::patterns::put_bits;

// The mode and the floats' bits over all of the lent words.
#[tactic(auto, using(crate::proofs::Words::all_laid), unfolding(crate::specs::Record::station_words))]
fn put_station(s: Station, words: &mut [u32])
    requires { length words.old ≡ 57 }
    ensures { words.new ≡ station_words s }
{
    words[0] = s.mode as u32;
    put_bits(words, 1, &s.parm);
    put_bits(words, 21, &s.gainmax);
    put_bits(words, 27, &s.gainmaxb);
}

// The station of 57 words.
#[tactic(auto, using(crate::proofs::Words::last_array), unfolding(crate::specs::Record::station_in))]
fn station_in(words: &[u32]) -> Station
    requires { length words.now ≡ 57 }
    ensures { result ≡ station_in words.now }
{
    station_at(words[0], &floats_of(words))
}

// Reads a record into 57 words: 0; or the refusal, and 8 first for words of another number.
#[tactic(auto, unfolding(crate::specs::Record::read_call, crate::specs::Record::read_left))]
pub fn read(bytes: &[u8], words: &mut [u32]) -> u32
    ensures { left result words.new ≡ read_call bytes.now words.old }
{
    if words.len() != 57 {
        return status(Err(Refusal::Space));
    }
    match station::read(bytes) {
        Ok(s) => {
            put_station(s, words);
            0
        }
        Err(r) => status(Err(r)),
    }
}

// Writes the record of 57 words in an edition: 0; or the refusal, and 8 first for words of another
// number.
#[tactic(auto, unfolding(crate::specs::Record::write_call, crate::specs::Record::write_left))]
pub fn write(edition: u32, words: &[u32], bytes: &mut [u8]) -> u32
    ensures { left result bytes.new ≡ write_call edition words.now bytes.old }
{
    if words.len() != 57 {
        return status(Err(Refusal::Space));
    }
    status(station::write(edition, station_in(words), bytes))
}
