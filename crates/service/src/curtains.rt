// The curtain's gain, factor and levels at many directions, their answers as one number; `curtain_calls`
// has what each call does.
ghost use Rattle.std.specs.Prelude.{◌≡◌};
ghost use Rattle.curtain_calls.specs.Curtain.{curtain_call, factor_call, curtain_levels_call};

// `curtain::gain` of twenty parameters; 8 first for parameters of another number.
#[unsafe(no_mangle)]
pub extern "C" fn hf_curtain(parm: &[f32], azimuth: f32, elevation: f32, factor: f32) -> u64
    ensures { result ≡ curtain_call parm.now azimuth elevation factor }
{
    curtain_calls::gain(parm, azimuth, elevation, factor)
}

// `curtain::factor` of twenty parameters; 8 first for parameters of another number.
#[unsafe(no_mangle)]
pub extern "C" fn hf_curtain_factor(parm: &[f32]) -> u64
    ensures { result ≡ factor_call parm.now }
{
    curtain_calls::factor(parm)
}

// `curtain::levels` of twenty parameters: the levels at the pairs of azimuth and elevation in the
// lent floats. 8 first for parameters of another number.
#[unsafe(no_mangle)]
pub extern "C" fn hf_curtain_levels(
    parm: &[f32],
    factor: f32,
    directions: &[f32],
    levels: &mut [f32],
) -> u64
    ensures { (result, levels.new) ≡ curtain_levels_call parm.now factor directions.now levels.old }
{
    curtain_calls::levels(parm, factor, directions, levels)
}
