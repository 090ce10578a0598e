#![tactic(auto)]

// The last sixty-four field strengths as `service` lends them, their state in 66 lent words. `record` and
// `show` take any words, and leave in three words what `levels` shows of them (specs/Strengths.antt); a
// refusal leaves them as they were.
ghost use Rattle.std.specs.Prelude.{◌≡◌, length};
ghost use Rattle.answers.specs.Outcome.{outcome};
ghost use Rattle.packed.specs.Lists.{left};
ghost use Rattle.strength_calls.specs.Strengths.{screen_words, levels_left, record_call, levels_call};

use answers::Refusal;
use levels::Levels;
use numeric::bits::bits_of;
use packed::status;

// What the screen shows in three words; a refusal leaves them as they were.
#[tactic(auto, unfolding(crate::specs::Strengths::screen_words))]
fn put_screen(screen: Result<Option<Levels>, Refusal>, out: &mut [u32]) -> u32
    requires { length out.old ≡ 3 }
    ensures { left result out.new ≡ screen_words (outcome screen) out.old }
{
    match screen {
        Ok(Some(l)) => {
            out.copy_from_slice(&[l.held, bits_of(l.greatest), bits_of(l.least)]);
            0
        }
        Ok(None) => {
            out.fill(0);
            0
        }
        Err(r) => status(Err(r)),
    }
}

// One level more: 0, with what is shown then in three words; or the refusal, and 8 first for words
// of another number.
#[tactic(auto, unfolding(crate::specs::Strengths::record_call))]
pub fn record(state: &mut [u32], level: f32, out: &mut [u32]) -> u32
    ensures { levels_left state.new (left result out.new) ≡ record_call state.old level out.old }
{
    if out.len() != 3 {
        return status(Err(Refusal::Space));
    }
    put_screen(levels::record(state, level), out)
}

// What is shown without a record.
#[tactic(auto, unfolding(crate::specs::Strengths::levels_call))]
pub fn show(state: &[u32], out: &mut [u32]) -> u32
    ensures { left result out.new ≡ levels_call state.now out.old }
{
    if out.len() != 3 {
        return status(Err(Refusal::Space));
    }
    put_screen(levels::show(state), out)
}
