#![tactic(auto)]

// The maximum gain between the gains that an antenna file lists: per MHz, or by frequency ratio. Inner
// steps of `setmaxgain`, which keeps what `gainterb` asks, a frequency in the band.
ghost use Rattle.std.specs.Prelude.{◌≡◌, ◌<◌, ◌≤◌, true};
ghost use Rattle.model.specs.Limits.{in_band};
ghost use Rattle.interpolation.specs.Interpolation.{lower_mhz, gain_ter_b, frs, ratio_index, gain_terp1, ratio_ok, gain_terp};

use floats::range::is_between;

// The whole MHz below freq; 29 at 30.
#[tactic(auto, using(crate::proofs::Cuts::cut_band), unfolding(crate::specs::Interpolation::lower_mhz))]
fn lower_mhz(freq: f32) -> usize
    requires { in_band freq ≡ true }
    ensures value { result ≡ lower_mhz freq }
    ensures result_nonzero { (0 < result) × (result < 30) }
{
    numeric::float::to_usize(freq).min(29)
}

// Inner step of `setmaxgain`, which refuses other frequencies: the maximum gain by the gains at 1, 2 .. 30 MHz (types 5 to 7).
#[tactic(auto, unfolding(crate::specs::Interpolation::gain_ter_b))]
pub fn gainterb(gainab: [f32; 30], freq: f32) -> f32
    requires { in_band freq ≡ true }
    ensures { result ≡ gain_ter_b gainab freq }
{
    let idx = lower_mhz(freq);
    let fact = freq - std::num::nearest_u32_to_f32(idx as u32);
    let lo = gainab[idx - 1];
    let hi = gainab[idx];
    lo + (hi - lo) * fact
}

// The frequency ratios of the three gains.
#[tactic(auto, unfolding(crate::specs::Interpolation::frs))]
fn ratios_of(iant: u32) -> [f32; 3]
    ensures { result ≡ frs iant }
{
    if iant == 1 {
        [0.7, 1.0, 1.4]
    } else {
        [0.85, 1.0, 1.2]
    }
}

// The lower one of the two gains to interpolate between.
#[tactic(auto, unfolding(crate::specs::Interpolation::ratio_index))]
fn ratio_index(fr: f32) -> usize
    ensures value { result ≡ ratio_index fr }
    ensures upper_bound { result ≤ 1 }
{
    if fr < 1.0 { 0 } else { 1 }
}

// `gainterp1`: the maximum gain at the ratio fr by three gains at one frequency.
#[tactic(auto, unfolding(crate::specs::Interpolation::gain_terp1))]
pub fn gainterp1(gainaa: [f32; 3], fr: f32, iant: u32) -> f32
    ensures { result ≡ gain_terp1 gainaa fr iant }
{
    let frs = ratios_of(iant);
    let idx = ratio_index(fr);
    let lo = gainaa[idx];
    let hi = gainaa[idx + 1];
    lo + (hi - lo) * (fr - frs[idx]) / (frs[idx + 1] - frs[idx])
}

// Whether the gains cover the ratio.
#[tactic(auto, unfolding(crate::specs::Interpolation::ratio_ok))]
fn ratio_ok(iant: u32, fr: f32) -> bool
    ensures { result ≡ ratio_ok iant fr }
{
    if iant == 1 {
        is_between(fr, 0.7, 1.4)
    } else {
        is_between(fr, 0.85, 1.2)
    }
}

// `gainterp`: the maximum gain between the row at 2 MHz and the row at 30 MHz (types 1 to 4, 8 and
// 9); -30 where the ratio lies outside.
#[tactic(auto, unfolding(crate::specs::Interpolation::gain_terp))]
pub fn gainterp(gainmax: [f32; 6], foper: f32, fdesign: f32, iant: u32) -> f32
    ensures { result ≡ gain_terp gainmax foper fdesign iant }
{
    let fr = foper / fdesign;
    if !ratio_ok(iant, fr) {
        return -30.0;
    }
    let g1 = gainterp1([gainmax[0], gainmax[1], gainmax[2]], fr, iant);
    let g2 = gainterp1([gainmax[3], gainmax[4], gainmax[5]], fr, iant);
    g1 + (g2 - g1) * (foper - 2.0) / 28.0
}
