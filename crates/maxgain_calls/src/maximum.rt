// The maximum gain, floats in and words out.
ghost use Rattle.std.specs.Prelude.{◌≡◌, length};
ghost use Rattle.answers.specs.Outcome.{outcome_as};
ghost use Rattle.maxgain.specs.Maximum.{gain_and_parm};
ghost use Rattle.packed.specs.Lists.{left};
ghost use Rattle.maxgain_calls.specs.Maximum.{maximum_words, maxgain_call};

use answers::Refusal;
use maxgain::maximum::Found;
use maxgain::setmaxgain;
use numeric::bits::bits_of;
use packed::lent::station_at;
use packed::status;
use words::patterns::put_bits;

// The answer in the lent words; a refusal leaves them as they were.
#[tactic(auto, unfolding(crate::specs::Maximum::maximum_words))]
fn put_maximum(found: Result<Found, Refusal>, out: &mut [u32]) -> u32
    requires { length out.old ≡ 21 }
    ensures { left result out.new ≡ maximum_words (outcome_as gain_and_parm found) out.old }
{
    match found {
        Ok(f) => {
            out[0] = bits_of(f.gain);
            put_bits(out, 1, &f.parm);
            0
        }
        Err(r) => status(Err(r)),
    }
}

// `setmaxgain` of 58 floats, parm, gainmax, gainmaxb, MHz and design MHz: 0, with the gain and the
// parameters in 21 words; or the refusal, and 8 first for slices of other lengths.
#[tactic(auto, unfolding(crate::specs::Maximum::maxgain_call, crate::specs::Maximum::maximum_of))]
pub fn maxgain(mode: u32, floats: &[f32], out: &mut [u32]) -> u32
    ensures { left result out.new ≡ maxgain_call mode floats.now out.old }
{
    if (floats.len() != 58) | (out.len() != 21) {
        return status(Err(Refusal::Space));
    }
    put_maximum(
        setmaxgain(station_at(mode, floats), floats[56], floats[57]),
        out,
    )
}
