#![tactic(auto)]

// The planning service's rhythm as `service` lends it: set up once into a lent antenna record and table,
// then gains and rows over both. `setup`, `gain` and `plate_row` take any floats, and any words are read
// as a record; each is one equation with its definition (specs/Antennas.antt), what a refusal leaves
// included, and what `setup` leaves as the record is read back as set-up's own.
ghost use Rattle.std.specs.Prelude.{◌≡◌, length};
ghost use Rattle.answers.specs.Outcome.{outcome, outcome_as};
ghost use Rattle.antenna.specs.Gain.{told};
ghost use Rattle.antenna.specs.SetUp.{set_up_of, beside_of};
ghost use Rattle.antenna_words.specs.Reading.{antenna_in};
ghost use Rattle.antenna_calls.specs.Antennas.{set_up_left, set_up_call, gain_number, gain_call, row_number, row_call, row_call_after};

use answers::Refusal;
use antenna::gain::{Gain, ccirgain};
use antenna::setup::antinit2;
use antenna_words::{antenna_in, put_antenna};
use gains_calls::found::put_search;
use numeric::bits::bits_of;
use packed::{refused, status};

// The antenna record's words.
const ANTENNA: usize = 998;

// `antinit2` of twenty parameters: 0, with the table, the antenna record's words and what the search
// found; or the refusal. 8 first for parameters, a record or words of another number. What is left
// as the record is read back as set-up's own.
#[tactic(auto, unfolding(crate::specs::Antennas::set_up_call, crate::specs::Antennas::recorded))]
pub fn setup(parm: &[f32], table: &mut [f32], antenna: &mut [u32], out: &mut [u32]) -> u32
    ensures out_after { set_up_left result table.new antenna.new out.new ≡ set_up_call parm.now table.old antenna.old out.old }
    ensures antenna_after { result ≡ 0 → antenna_in antenna.new ≡ beside_of (set_up_of parm.now (length table.old)) }
{
    let Ok(parm) = <[f32; 20]>::try_from(parm) else {
        return status(Err(Refusal::Space));
    };
    if (antenna.len() != ANTENNA) | (out.len() != 4) {
        return status(Err(Refusal::Space));
    }
    match antinit2(parm, table) {
        Err(r) => status(Err(r)),
        Ok(s) => {
            put_search(out, s.readings, s.antenna.peak);
            put_antenna(antenna, s.antenna);
            0
        }
    }
}

// The kind in the upper half, the bits or the refusal's number in the lower.
#[tactic(auto, unfolding(crate::specs::Antennas::gain_number, gains_calls::specs::Gains::kind_number))]
fn pack_gain(g: Result<Gain, Refusal>) -> u64
    ensures { result ≡ gain_number (outcome_as told g) }
{
    match g {
        Ok(Gain { kind, number }) => kind as u64 * 0x1_0000_0000 + bits_of(number) as u64,
        Err(r) => refused(r),
    }
}

// `ccirgain` of the record in the words. 8 first for words of another number.
#[tactic(auto, unfolding(crate::specs::Antennas::gain_call))]
pub fn gain(antenna: &[u32], table: &[f32], elevation: f32, azimuth: f32, giso: f32) -> u64
    ensures { result ≡ gain_call antenna.now table.now elevation azimuth giso }
{
    if antenna.len() != ANTENNA {
        return refused(Refusal::Space);
    }
    pack_gain(ccirgain(antenna_in(antenna), table, elevation, azimuth, giso))
}

// Front-to-back's bits, or the refusal's number under kind 3.
#[tactic(auto, unfolding(crate::specs::Antennas::row_number))]
fn pack_row(front_to_back: Result<f32, Refusal>) -> u64
    ensures { result ≡ row_number (outcome front_to_back) }
{
    match front_to_back {
        Ok(x) => bits_of(x) as u64,
        Err(refusal) => refused(refusal),
    }
}

// `row` of the record in the words: the numbers at azimuths 0 to 359 in the lent row. 8 first for
// words of another number.
#[tactic(auto, unfolding(crate::specs::Antennas::row_call, crate::specs::Antennas::row_call_after))]
pub fn plate_row(antenna: &[u32], table: &[f32], elevation: f32, giso: f32, row: &mut [f32]) -> u64
    ensures value { result ≡ row_call antenna.now table.now elevation giso (length row.old) }
    ensures row_after { row.new ≡ row_call_after antenna.now table.now elevation giso row.old }
{
    if antenna.len() != ANTENNA {
        return refused(Refusal::Space);
    }
    pack_row(plate_row::row::row(antenna_in(antenna), table, elevation, giso, row))
}
