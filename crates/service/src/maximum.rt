// The maximum gain, floats in and words out; `maxgain_calls` has what the call does.
ghost use Rattle.std.specs.Prelude.{◌≡◌};
ghost use Rattle.packed.specs.Lists.{left};
ghost use Rattle.maxgain_calls.specs.Maximum.{maxgain_call};

// `setmaxgain` of 58 floats, parm, gainmax, gainmaxb, MHz and design MHz: 0, with the gain and the
// parameters in 21 words; or the refusal, and 8 first for slices of other lengths.
#[unsafe(no_mangle)]
pub extern "C" fn hf_maxgain(mode: u32, floats: &[f32], out: &mut [u32]) -> u32
    ensures { left result out.new ≡ maxgain_call mode floats.now out.old }
{
    maxgain_calls::maximum::maxgain(mode, floats, out)
}
