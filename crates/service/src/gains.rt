// Gains at many directions, set up once; `gains_calls` has what the call does.
ghost use Rattle.std.specs.Prelude.{◌≡◌};
ghost use Rattle.packed.specs.Lists.{left};
ghost use Rattle.gains_calls.specs.Gains.{gains_call};

// `antinit2` of twenty parameters, then `ccirgain` at each pair of elevation and azimuth: 0, with
// what the search found and two words a pair; or set-up's refusal, and 8 first for slices of other
// lengths.
#[unsafe(no_mangle)]
pub extern "C" fn hf_gains(parm: &[f32], giso: f32, directions: &[f32], out: &mut [u32]) -> u32
    ensures { left result out.new ≡ gains_call parm.now giso directions.now out.old }
{
    gains_calls::gains(parm, giso, directions, out)
}
