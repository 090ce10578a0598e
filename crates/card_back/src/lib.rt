#![tactic(auto)]

// A station written back as a card. `card_of` takes any bytes and writes the card (specs/Text.antt) of
// a station's 237: a line for each field of its kind, each number in the fewest decimals that are read
// back (crate `typed`). The text is read by crate `card` before it is answered, and answered only where
// it reads to the same bytes; else there is no card: `back_of` (specs/Back.antt). So what is written
// reads to what it was written from (`written-reads`, proofs/Laws.antt).
mod text;

ghost use Rattle.std.specs.Prelude.{◌≡◌, length};
ghost use Rattle.answers.specs.Outcome.{outcome};
ghost use Rattle.card_back.specs.Back.{reads, finite_end, read_back, delivered_to, back_of};
ghost use Rattle.card_back.specs.Inner.{Sound};
ghost use Rattle.card_back.specs.Text.{kind_of, place_in, text_of};

use crate::text::Source;
use answers::Refusal;
use lines::same;
use numeric::float::is_finite;
use station::Station;
use words::big_endian::float_at;
use words::page::{Page, put_page};

// Whether the reader makes these bytes of a text.
fn reads(text: &[u8], bytes: &[u8]) -> bool
    ensures { result ≡ reads text.now bytes.now }
{
    let mut made = [0u8; 237];
    match card::station(text, &mut made) {
        Ok(()) => same(&made, bytes),
        Err(_) => false,
    }
}

// Whether the three floats behind the record are finite.
#[tactic(auto, unfolding(crate::specs::Back::finite_end))]
fn finite_end(bytes: &[u8]) -> bool
    requires { length bytes.now ≡ 237 }
    ensures { result ≡ finite_end bytes.now }
{
    is_finite(float_at(bytes, 225))
        & is_finite(float_at(bytes, 229))
        & is_finite(float_at(bytes, 233))
}

// Writes the card of a station's bytes with this record, if it reads back.
#[tactic(auto, using(words::proofs::Writing::page_has), unfolding(crate::specs::Back::read_back, crate::specs::Back::delivered_to))]
fn write_card(s: Station, bytes: &[u8], out: &mut [u8]) -> Result<usize, Refusal>
    requires { Sound s bytes.now }
    ensures { (outcome result, out.new) ≡ delivered_to out.old (read_back (text_of (kind_of s) (place_in s bytes.now)) bytes.now) }
{
    let mut page: Page<8192> = Page::new();
    Source::new(s, bytes).push_text(&mut page);
    if !reads(page.text(), bytes) {
        return Err(Refusal::Record);
    }
    if out.len() < 8192 {
        return Err(Refusal::Space);
    }
    Ok(put_page(&page, out))
}

// Writes the card of a station's 237 bytes over the first of the lent ones, and answers its length.
// Refused under 1 where there is none, under 8 where fewer than 8,192 bytes are lent; a refusal leaves
// them as they were.
pub fn card_of(station: &[u8], out: &mut [u8]) -> Result<usize, Refusal>
    ensures { (outcome result, out.new) ≡ back_of station.now out.old }
{
    if station.len() != 237 {
        return Err(Refusal::Record);
    }
    let Ok(record) = station::read(&station[..225]) else {
        return Err(Refusal::Record);
    };
    if !finite_end(station) {
        return Err(Refusal::Record);
    }
    write_card(record, station, out)
}
