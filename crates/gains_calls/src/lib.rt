#![tactic(auto)]

// Gains at many directions, set up once, as `service` lends them. `gains` takes any floats, and leaves in
// lent words what set-up's search found and `ccirgain` at each direction, two words a pair
// (specs/Gains.antt); a refusal leaves the words as they were.
pub mod found;

ghost use Rattle.std.specs.Prelude.{◌≡◌, true, [], ◌∷◌, ◌+◌, ◌/◌, ◌%◌, ◌≤◌, length};
ghost use Rattle.antenna.specs.Gain.{told};
ghost use Rattle.antenna.specs.SetUp.{set_up_of, lent_after};
ghost use Rattle.antenna.specs.TableSum.{own_table};
ghost use Rattle.answers.specs.Outcome.{number_of, outcome_as};
ghost use Rattle.packed.specs.Lists.{left};
ghost use Rattle.words.specs.Laid.{laid};
ghost use Rattle.gains_calls.specs.Gains.{gain_words, gains_to, gains_left, gains_fit, gains_call};

use crate::found::put_search;
use answers::Refusal;
use antenna::gain::{Gain, gain_told};
use antenna::record::Antenna;
use antenna::setup::antinit2;
use model::table::blank_table;
use numeric::bits::bits_of;
use packed::arrays::floats_at;
use packed::status;

// A gain in two words: its kind and its bits, or 3 and the refusal's number.
#[tactic(auto, unfolding(crate::specs::Gains::gain_words, crate::specs::Gains::kind_number))]
fn pair_of(g: Result<Gain, Refusal>) -> [u32; 2]
    ensures { result ≡ gain_words (outcome_as told g) }
{
    match g {
        Ok(Gain { kind, number }) => [kind as u32, bits_of(number)],
        Err(r) => [3, status(Err(r))],
    }
}

#[tactic(auto, unfolding(words::specs::Laid::laid))]
fn put_gain(out: &mut [u32], at: usize, g: Result<Gain, Refusal>)
    requires { at + 2 ≤ length out.old }
    ensures { out.new ≡ laid out.old at (gain_words (outcome_as told g)) }
{
    out[at..at + 2].copy_from_slice(&pair_of(g));
}

// The gains at all directions, from word 4 on. The table is the record's own, so that its sum isn't
// taken for each.
fn put_gains(ant: Antenna, table: &[f32], giso: f32, directions: &[f32], out: &mut [u32])
    requires { (length out.old ≡ 4 + length directions.now) × (own_table ant table.now ≡ true) }
    ensures { out.new ≡ laid out.old 4 (gains_to ant table.now giso directions.now (length directions.now / 2)) }
{
    for k in 0..directions.len() / 2 {
        let i = 2 * k;
        let gain = gain_told(ant, table, true, directions[i], directions[i + 1], giso);
        put_gain(out, 4 + i, gain);
    }
}

// Whether there are twenty parameters, whole pairs, and four words plus two a pair.
#[tactic(auto, unfolding(crate::specs::Gains::gains_fit))]
fn gains_fit(parm: usize, directions: usize, out: usize) -> bool
    ensures { result ≡ gains_fit parm directions out }
{
    4 <= out && out - 4 == directions && parm == 20 && directions % 2 == 0
}

// Set-up into the lent table, then the gains.
#[tactic(auto, unfolding(crate::specs::Gains::gains_left))]
fn gains_over(
    parm: [f32; 20],
    table: &mut [f32],
    giso: f32,
    directions: &[f32],
    out: &mut [u32],
) -> Result<(), Refusal>
    requires { (length out.old ≡ 4 + length directions.now) × (length directions.now % 2 ≡ 0) }
    ensures { left (number_of result) out.new ≡ gains_left (set_up_of parm (length table.old)) (lent_after parm table.old) giso directions.now out.old }
{
    let s = antinit2(parm, table)?;
    put_search(out, s.readings, s.antenna.peak);
    put_gains(s.antenna, table, giso, directions, out);
    Ok(())
}

// `antinit2` of twenty parameters, then `ccirgain` at each pair of elevation and azimuth: 0, with
// what the search found and two words a pair; or set-up's refusal, and 8 first for slices of other
// lengths.
#[tactic(auto, unfolding(crate::specs::Gains::gains_call, crate::specs::Gains::gains_fit))]
pub fn gains(parm: &[f32], giso: f32, directions: &[f32], out: &mut [u32]) -> u32
    ensures { left result out.new ≡ gains_call parm.now giso directions.now out.old }
{
    if !gains_fit(parm.len(), directions.len(), out.len()) {
        return status(Err(Refusal::Space));
    }
    let mut table = blank_table();
    status(gains_over(floats_at(parm, 0), &mut table, giso, directions, out))
}
