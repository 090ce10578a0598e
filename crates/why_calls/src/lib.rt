#![tactic(auto)]

// Which slot a refusal is about, as `service` lends it: one number. `why` for the types 1 to 9 and
// `curtain_why` for the curtain take any floats, and answer what the crates `set_up_why` and
// `curtain_why` say of them (specs/Why.antt): 0 for nothing, or kind 4 with the refusal's number and
// slot.
ghost use Rattle.std.specs.Prelude.{◌≡◌};
ghost use Rattle.slots.specs.Told.{told_of};
ghost use Rattle.why_calls.specs.Why.{packed, why_call, curtain_why_call};

use answers::Refusal;
use packed::{refused, refused_at};
use slots::Broken;

// 0 for nothing, or kind 4 with a refusal's number and slot.
#[tactic(auto, unfolding(crate::specs::Why::packed))]
fn pack(w: Option<Broken>) -> u64
    ensures { result ≡ packed (told_of w) }
{
    match w {
        None => 0,
        Some(b) => refused_at(b.refusal, b.slot),
    }
}

// `set_up_why::why::why` of twenty parameters; 8 first for parameters of another number.
#[tactic(auto, unfolding(crate::specs::Why::why_call))]
pub fn why(parm: &[f32]) -> u64
    ensures { result ≡ why_call parm.now }
{
    match <[f32; 20]>::try_from(parm) {
        Ok(p) => pack(set_up_why::why::why(p)),
        Err(_) => refused(Refusal::Space),
    }
}

// `curtain_why::why::why` of twenty parameters; 8 first for parameters of another number.
#[tactic(auto, unfolding(crate::specs::Why::curtain_why_call))]
pub fn curtain_why(parm: &[f32]) -> u64
    ensures { result ≡ curtain_why_call parm.now }
{
    match <[f32; 20]>::try_from(parm) {
        Ok(p) => pack(curtain_why::why::why(p)),
        Err(_) => refused(Refusal::Space),
    }
}
