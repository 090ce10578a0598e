// The programs `plate` and `planet` for Rust and C callers.
ghost use Rattle.std.specs.Prelude.{◌≡◌, length};
ghost use Rattle.words.specs.Writing.{Wrote};
ghost use Rattle.plate_text.specs.Plate.{text_in};
ghost use Rattle.planet_text.specs.Planet.{planet_of, text_after};
ghost use Rattle.packed.specs.Packed.{counted};

use packed::counted;

// The program's whole output for this input, and its length; a text of under 8,192 bytes gets
// nothing, and 0.
#[unsafe(no_mangle)]
pub extern "C" fn hf_plate(input: &[u8], text: &mut [u8]) -> usize
    ensures { Wrote text.old 0 (text_in (length text.old) input.now) text.new result }
{
    plate_text::plate(input, text)
}

// `planet_text::planet`: the Planet text of this input over the first bytes of the lent text; kind 0 with
// its length, or kind 3 with a refusal's number.
#[unsafe(no_mangle)]
#[tactic(auto, unfolding(packed::specs::Packed::counted))]
pub extern "C" fn hf_planet(input: &[u8], text: &mut [u8]) -> u64
    ensures value { result ≡ counted (planet_of input.now (length text.old)) }
    ensures text_after { text.new ≡ text_after input.now text.old }
{
    counted(planet_text::planet(input, text).map(|length| length as u64))
}
