// What the maximum gain would write, floats in and words out.
ghost use Rattle.std.specs.Prelude.{◌≡◌, length};
ghost use Rattle.answers.specs.Outcome.{outcome};
ghost use Rattle.packed.specs.Lists.{left};
ghost use Rattle.maxgain_calls.specs.Preview.{shown_words, preview_words, preview_call};

use answers::Refusal;
use maxgain_preview::Shown;
use numeric::bits::bits_of;
use packed::lent::station_at;
use packed::status;

// The gain's bits, then each slot's mark and bits.
#[tactic(auto, unfolding(crate::specs::Preview::shown_words))]
fn put_shown(s: Shown, out: &mut [u32])
    requires { length out.old ≡ 7 }
    ensures { out.new ≡ shown_words s }
{
    let words = [
        bits_of(s.gain),
        u32::from(s.slot4.written),
        bits_of(s.slot4.value),
        u32::from(s.slot5.written),
        bits_of(s.slot5.value),
        u32::from(s.slot7.written),
        bits_of(s.slot7.value),
    ];
    out.copy_from_slice(&words);
}

// What is shown in the lent words; a refusal leaves them as they were.
#[tactic(auto, unfolding(crate::specs::Preview::preview_words))]
fn put_preview(shown: Result<Shown, Refusal>, out: &mut [u32]) -> u32
    requires { length out.old ≡ 7 }
    ensures { left result out.new ≡ preview_words (outcome shown) out.old }
{
    match shown {
        Ok(s) => {
            put_shown(s, out);
            0
        }
        Err(r) => status(Err(r)),
    }
}

// What `maxgain` would do with the same floats: 0, with the gain and slots 4, 5 and 7 in 7 words;
// or its refusal, and 8 first for slices of other lengths.
#[tactic(auto, unfolding(crate::specs::Preview::preview_call, crate::specs::Preview::preview_from))]
pub fn preview(mode: u32, floats: &[f32], out: &mut [u32]) -> u32
    ensures { left result out.new ≡ preview_call mode floats.now out.old }
{
    if (floats.len() != 58) | (out.len() != 7) {
        return status(Err(Refusal::Space));
    }
    put_preview(
        maxgain_preview::preview(station_at(mode, floats), floats[56], floats[57]),
        out,
    )
}
