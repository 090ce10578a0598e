#![tactic(auto)]

// The station record: 225 bytes with a mode and 56 floats, and in edition 1 the type, read and
// written. specs/Record.antt says what a record is, specs/Header.antt what its first bits are,
// specs/Answers.antt what the reader and the writer answer. Reading and writing undo each other in
// each edition (`read-written`, `written_read`, proofs/RoundTrip.antt).
pub mod fields;
pub mod header;
pub mod packed;

ghost use Rattle.std.specs.Prelude.{◌≡◌, ◌≤◌, length, false};
ghost use Rattle.answers.specs.Outcome.{outcome};
ghost use Rattle.model.specs.Limits.{slot};
ghost use Rattle.station.specs.Header.{typeless};
ghost use Rattle.station.specs.Record.{is_record, floats_in, record_of};
ghost use Rattle.station.specs.Answers.{answer, floats_answer, read_of, write_of};

use answers::Refusal;
use fields::{all_finite, blank, float_at, with_float};
use header::{header_of, type_agrees, typeless, width_of};
use numeric::bits::{bits_of, float_of};
use numeric::float::is_finite;
use packed::{last_byte, put_word, word_at};

// A station: the mode (`modegain`, 3 for the curtain), `parm`, `gainmax` row by row, `gainmaxb`.
#[derive(Clone, Copy, Debug, PartialEq)]
pub struct Station {
    pub mode: u8,
    pub parm: [f32; 20],
    pub gainmax: [f32; 6],
    pub gainmaxb: [f32; 30],
}

// Whether these bytes have a record's length, an edition that there is, and what that edition asks:
// edition 0 has no spare bit set, edition 1 a type that agrees.
#[tactic(auto, using(crate::proofs::Editions::edition_0, crate::proofs::Editions::edition_1, crate::proofs::Editions::edition_above, crate::proofs::Unpacking::float_in, words::proofs::Digits::below_all), unfolding(crate::specs::Record::is_record))]
fn is_record(bytes: &[u8]) -> bool
    ensures { result ≡ is_record bytes.now }
{
    if bytes.len() != 225 {
        return false;
    }
    let first = bytes[0];
    match first / 64 {
        0 => bytes[224] % 16 == 0,
        1 => type_agrees(
            (first % 16) as u32,
            first / 16 % 4,
            float_of(word_at(bytes, 1, 8)),
        ),
        _ => false,
    }
}

// The station of this mode and a record's floats, or the refusal of the first that isn't finite.
fn read_floats(bytes: &[u8], mode: u8, header: u32) -> Result<Station, Refusal>
    requires { (length bytes.now ≡ 225) × (header ≤ 8) }
    ensures { outcome result ≡ floats_answer mode (floats_in header bytes.now) }
{
    let mut station = blank(mode);
    for k in 0..56 {
        let x = float_of(word_at(bytes, k, header));
        if !is_finite(x) {
            return Err(Refusal::Value);
        }
        station = with_float(station, k, x);
    }
    Ok(station)
}

// Reads a record of either edition.
#[tactic(auto, using(crate::proofs::Editions::record_length, crate::proofs::Editions::edition_at, crate::proofs::Editions::mode_at, crate::proofs::Headers::width_small, words::proofs::Digits::below_all), unfolding(crate::specs::Answers::read_of))]
pub fn read(bytes: &[u8]) -> Result<Station, Refusal>
    ensures { outcome result ≡ read_of bytes.now }
{
    if !is_record(bytes) {
        return Err(Refusal::Record);
    }
    let first = bytes[0];
    read_floats(bytes, first / 16 % 4, width_of((first / 64) as u32))
}

// Writes a station's record over 225 bytes.
fn put_record(edition: u32, s: Station, out: &mut [u8])
    requires { (length out.old ≡ 225) × (edition ≤ 1) × (s.mode ≤ 3) × (typeless edition s.mode (slot s.parm 1) ≡ false) }
    ensures { out.new ≡ record_of edition s }
{
    let header = width_of(edition);
    let mut carry = header_of(edition, s.mode, s.parm[1]);
    for k in 0..56 {
        let w = bits_of(float_at(s, k));
        carry = put_word(out, 4 * k, carry, w, header);
    }
    out[224] = last_byte(carry, header);
}

// Writes a station's record in this edition over the lent bytes; a refusal leaves them as they were.
#[tactic(auto, unfolding(crate::specs::Answers::write_of))]
pub fn write(edition: u32, s: Station, out: &mut [u8]) -> Result<(), Refusal>
    ensures { answer result out.new ≡ write_of edition s out.old }
{
    if 1 < edition {
        return Err(Refusal::Record);
    }
    if !all_finite(s) {
        return Err(Refusal::Value);
    }
    if typeless(edition, s.mode, s.parm[1]) {
        return Err(Refusal::Type);
    }
    if 3 < s.mode {
        return Err(Refusal::Mode);
    }
    if out.len() != 225 {
        return Err(Refusal::Space);
    }
    put_record(edition, s, out);
    Ok(())
}
