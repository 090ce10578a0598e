// The last sixty-four field strengths, their state in 66 lent words; `strength_calls` has what each
// call does.
ghost use Rattle.std.specs.Prelude.{◌≡◌};
ghost use Rattle.packed.specs.Lists.{left};
ghost use Rattle.strength_calls.specs.Strengths.{levels_left, record_call, levels_call};

// One level more: 0, with what is shown then in three words; or the refusal, and 8 first for words
// of another number.
#[unsafe(no_mangle)]
pub extern "C" fn hf_levels_record(state: &mut [u32], level: f32, out: &mut [u32]) -> u32
    ensures { levels_left state.new (left result out.new) ≡ record_call state.old level out.old }
{
    strength_calls::record(state, level, out)
}

// What is shown without a record.
#[unsafe(no_mangle)]
pub extern "C" fn hf_levels(state: &[u32], out: &mut [u32]) -> u32
    ensures { left result out.new ≡ levels_call state.now out.old }
{
    strength_calls::show(state, out)
}
