// What the maximum gain would write, floats in and words out; `maxgain_calls` has what the call does.
ghost use Rattle.std.specs.Prelude.{◌≡◌};
ghost use Rattle.packed.specs.Lists.{left};
ghost use Rattle.maxgain_calls.specs.Preview.{preview_call};

// What `hf_maxgain` would do with the same floats: 0, with the gain and slots 4, 5 and 7 in 7 words;
// or its refusal, and 8 first for slices of other lengths.
#[unsafe(no_mangle)]
pub extern "C" fn hf_preview(mode: u32, floats: &[f32], out: &mut [u32]) -> u32
    ensures { left result out.new ≡ preview_call mode floats.now out.old }
{
    maxgain_calls::preview::preview(mode, floats, out)
}
