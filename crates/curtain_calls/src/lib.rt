#![tactic(auto)]

// The curtain as `service` lends it, its answers as one number. `gain`, `factor` and `levels` take any
// floats, and answer what `curtain` answers of them (specs/Curtain.antt): bits, a count, or a refusal's
// number under kind 3; the levels are left in lent floats, which a refusal leaves as they were.
ghost use Rattle.std.specs.Prelude.{◌≡◌};
ghost use Rattle.curtain_calls.specs.Curtain.{curtain_call, factor_call, curtain_levels_call};

use answers::Refusal;
use numeric::bits::bits_of;
use packed::{counted, refused};

// `curtain::gain` of twenty parameters; 8 first for parameters of another number.
#[tactic(auto, unfolding(crate::specs::Curtain::curtain_call, crate::specs::Curtain::packed, packed::specs::Packed::counted))]
pub fn gain(parm: &[f32], azimuth: f32, elevation: f32, factor: f32) -> u64
    ensures { result ≡ curtain_call parm.now azimuth elevation factor }
{
    match <[f32; 20]>::try_from(parm) {
        Ok(p) => counted(curtain::gain(p, azimuth, elevation, factor).map(|x| bits_of(x) as u64)),
        Err(_) => refused(Refusal::Space),
    }
}

// `curtain::factor` of twenty parameters; 8 first for parameters of another number.
#[tactic(auto, unfolding(crate::specs::Curtain::factor_call, crate::specs::Curtain::packed, packed::specs::Packed::counted))]
pub fn factor(parm: &[f32]) -> u64
    ensures { result ≡ factor_call parm.now }
{
    match <[f32; 20]>::try_from(parm) {
        Ok(p) => counted(curtain::factor(p).map(|x| bits_of(x) as u64)),
        Err(_) => refused(Refusal::Space),
    }
}

// `curtain::levels` of twenty parameters: the levels at the pairs of azimuth and elevation in the
// lent floats. 8 first for parameters of another number.
#[tactic(auto, unfolding(crate::specs::Curtain::curtain_levels_call))]
pub fn levels(parm: &[f32], factor: f32, directions: &[f32], levels: &mut [f32]) -> u64
    ensures { (result, levels.new) ≡ curtain_levels_call parm.now factor directions.now levels.old }
{
    match <[f32; 20]>::try_from(parm) {
        Ok(p) => counted(curtain::levels::levels(p, factor, directions, levels).map(|n| n as u64)),
        Err(_) => refused(Refusal::Space),
    }
}
