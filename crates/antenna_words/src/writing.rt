// The antenna record's words.
ghost use Rattle.std.specs.Prelude.{◌≡◌, [], ◌∷◌, ◌++◌, map, ◌+◌, ◌≤◌, length};
ghost use Rattle.words.specs.Laid.{laid};
ghost use Rattle.words.specs.Patterns.{bits, F32s};
ghost use Rattle.antenna_words.specs.Fields.{joined, flag, low, constant_floats, element_fields, trig_fields, ground_fields, antenna_words};
ghost use Rattle.antenna_words.specs.Held.{HeldElements, HeldTrig, HeldGround, CountsAreWords};
ghost use Rattle.antenna_words.specs.Reading.{antenna_in};

use crate::counts::put_counts;
use antenna::record::Antenna;
use model::record::{Constants, Elements, Ground, Trig};
use search::record::Peak;
use words::patterns::put_bits;

// Floats of a slice, which are binary32s.
fn put_floats(out: &mut [u32], at: usize, xs: &[f32])
    requires { at + length xs.now ≤ length out.old }
    ensures out_after { out.new ≡ laid out.old at (bits xs.now) }
    ensures f32s { F32s xs.now }
{
    put_bits(out, at, xs);
}

// Two lists of floats, one behind the other.
#[tactic(auto, using(words::proofs::Laid::laid_more, crate::proofs::Lengths::bits_length))]
fn put_pair(out: &mut [u32], at: usize, xs: &[f32], ys: &[f32])
    requires { at + (length xs.now + length ys.now) ≤ length out.old }
    ensures out_after { out.new ≡ laid out.old at (bits xs.now ++ bits ys.now) }
    ensures f32s { F32s xs.now × F32s ys.now }
{
    put_floats(out, at, xs);
    put_floats(out, at + xs.len(), ys);
}

// The type, whether it is slewed, and the constants.
fn put_head(out: &mut [u32], iant: u32, slewed: bool, k: Constants)
    requires { length out.old ≡ 998 }
    ensures out_after { out.new ≡ laid out.old 0 ((iant ∷ flag slewed ∷ []) ++ bits (constant_floats k)) }
    ensures f32s { F32s (constant_floats k) }
{
    let floats = [
        k.d1, k.e1, k.beta, k.cpfr, k.cp11, k.fr1, k.h1, k.pfr, k.p11, k.p11s, k.q2, k.r2, k.r3,
        k.sl, k.costh, k.sinth,
    ];
    out[0] = iant;
    out[1] = u32::from(slewed);
    put_floats(out, 2, &floats);
}

// The elements' phases, currents and places.
#[tactic(auto, using(words::proofs::Laid::laid_more, crate::proofs::Lengths::pair_length))]
fn put_currents(out: &mut [u32], e: Elements)
    requires { length out.old ≡ 998 }
    ensures out_after { out.new ≡ laid out.old 18 (bits e.fi ++ bits e.rim ++ (bits e.x ++ bits e.y)) }
    ensures f32s { F32s e.fi × F32s e.rim × F32s e.x × F32s e.y }
{
    put_pair(out, 18, &e.fi, &e.rim);
    put_pair(out, 90, &e.x, &e.y);
}

// The active elements' numbers, all lengths and heights, and how many are active.
#[tactic(auto, using(words::proofs::Laid::laid_more, crate::proofs::Lengths::pair_length, crate::proofs::Lengths::counts_length, crate::proofs::Lengths::pairs_length))]
fn put_active(out: &mut [u32], e: Elements)
    requires { length out.old ≡ 998 }
    ensures out_after { out.new ≡ laid out.old 162 (map low e.iek ++ (bits e.rl ++ bits e.h ++ (low e.nat ∷ []))) }
    ensures f32s { F32s e.rl × F32s e.h }
{
    put_counts(out, 162, &e.iek);
    put_pair(out, 198, &e.rl, &e.h);
    put_counts(out, 265, &[e.nat]);
}

#[tactic(auto, using(words::proofs::Laid::laid_more, crate::proofs::Lengths::pair_length, crate::proofs::Lengths::pairs_length, crate::proofs::Lengths::elements_joined))]
fn put_elements(out: &mut [u32], e: Elements)
    requires { length out.old ≡ 998 }
    ensures out_after { out.new ≡ laid out.old 18 (joined (element_fields e)) }
    ensures held_elements { HeldElements e }
{
    put_currents(out, e);
    put_active(out, e);
}

#[tactic(auto, unfolding(crate::specs::Fields::joined, crate::specs::Fields::trig_fields))]
fn put_trig(out: &mut [u32], t: Trig)
    requires { length out.old ≡ 998 }
    ensures out_after { out.new ≡ laid out.old 266 (joined (trig_fields t)) }
    ensures held_trig { HeldTrig t }
{
    put_pair(out, 266, &t.a, &t.b);
}

#[tactic(auto, using(words::proofs::Laid::laid_more, crate::proofs::Lengths::pair_length, crate::proofs::Lengths::pairs_length, crate::proofs::Lengths::ground_joined))]
fn put_ground(out: &mut [u32], g: Ground)
    requires { length out.old ≡ 998 }
    ensures out_after { out.new ≡ laid out.old 448 (joined (ground_fields g)) }
    ensures held_ground { HeldGround g }
{
    put_pair(out, 448, &g.w3, &g.w4);
    put_pair(out, 630, &g.w5, &g.w6);
    put_pair(out, 812, &g.w9, &g.w10);
}

#[tactic(auto, using(words::proofs::Laid::laid_more, crate::proofs::Lengths::trig_length))]
fn put_tables(out: &mut [u32], t: Trig, g: Ground)
    requires { length out.old ≡ 998 }
    ensures out_after { out.new ≡ laid out.old 266 (joined (trig_fields t) ++ joined (ground_fields g)) }
    ensures held_trig { HeldTrig t × HeldGround g }
{
    put_trig(out, t);
    put_ground(out, g);
}

fn put_peak(out: &mut [u32], p: Peak)
    requires { length out.old ≡ 998 }
    ensures out_after { out.new ≡ laid out.old 994 (bits (p.z6 ∷ p.umax ∷ p.vmax ∷ [])) }
    ensures f32s { F32s (p.z6 ∷ p.umax ∷ p.vmax ∷ []) }
{
    put_floats(out, 994, &[p.z6, p.umax, p.vmax]);
}

// Writes the record over all 998 words. Reading them gives the record back. An inner step: the caller
// sees that there are so many.
pub fn put_antenna(out: &mut [u32], ant: Antenna)
    requires { length out.old ≡ 998 }
    ensures out_after { out.new ≡ antenna_words ant }
    ensures out_after_2 { CountsAreWords ant → antenna_in out.new ≡ ant }
{
    let m = ant.model;
    put_head(out, m.iant, m.slewed, m.constants);
    put_elements(out, m.elements);
    put_tables(out, m.trig, m.ground);
    put_peak(out, ant.peak);
    out[997] = ant.sum;
}
