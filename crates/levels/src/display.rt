// What the screen shows of a state.
ghost use Rattle.std.specs.Prelude.{◌≡◌, ◌≤◌, ◌<◌, ◌++◌, length, get_or};
ghost use Rattle.std.proofs.Math.Seq.{slice};
ghost use Rattle.std.specs.Float.{binary32};
ghost use Rattle.std.specs.Float.Ieee.{of_bits};
ghost use Rattle.levels.specs.State.{held, next, levels_in};
ghost use Rattle.levels.specs.Shown.{screen_of};

use crate::Levels;
use crate::extremes::{Extremes, extremes_over};
use numeric::bits::float_of;

// The earliest level, which all are compared with.
fn earliest(state: &[u32], held: usize, next: usize) -> f32
    requires { (0 < held) × (next ≤ held) × (held ≤ length state.now) }
    ensures { result ≡ of_bits binary32 (get_or (slice next held state.now ++ slice 0 next state.now) 0 0) }
{
    if next < held {
        float_of(state[next])
    } else {
        float_of(state[0])
    }
}

// The ring's later part was received earlier, so it is compared first.
pub(crate) fn shown(state: &[u32]) -> Option<Levels>
    requires { (length state.now ≡ 66) × (held state.now ≤ 64) × (next state.now ≤ held state.now) }
    ensures { result ≡ screen_of (levels_in state.now) }
{
    let count = state[64];
    if count == 0 {
        return None;
    }
    let held = count as usize;
    let next = state[65] as usize;
    let first = earliest(state, held, next);
    let alone = Extremes {
        greatest: first,
        least: first,
    };
    let late = extremes_over(&state[next..held], alone);
    let all = extremes_over(&state[..next], late);
    Some(Levels {
        held: count,
        greatest: all.greatest,
        least: all.least,
    })
}
