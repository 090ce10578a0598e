#![tactic(auto)]

// Document 02, card 2: what `setmaxgain` would write, shown before it does. The parameters are read
// only. `preview` answers any inputs: the gain, and slots 4, 5 and 7 as written or kept
// (specs/Preview.antt, `preview_of`). `preview_law` (specs/PreviewLaw.antt): it is what the call does on
// a copy of the parameters, refusals included.
ghost use Rattle.std.specs.Prelude.{◌≡◌, cond, eqb};
ghost use Rattle.floats.specs.Ops.{at};
ghost use Rattle.model.specs.Types.{jant_of};
ghost use Rattle.answers.specs.Outcome.{outcome};
ghost use Rattle.maxgain_preview.specs.Preview.{written_slot, kept_slot, marked_by, preview_of};

use answers::Refusal;
use maxgain::maximum::Found;
use maxgain::setmaxgain;
use model::types::{AntennaType, jant};
use station::Station;

// A slot as the call leaves it, and whether the call writes it, if only with the same bits. A kept
// slot has a value too, its present one, so it is no `Option`.
#[derive(Clone, Copy, Debug, PartialEq)]
pub struct Slot {
    pub written: bool,
    pub value: f32,
}

// The maximum gain, and the slots that some mode writes.
#[derive(Clone, Copy, Debug, PartialEq)]
pub struct Shown {
    pub gain: f32,
    pub slot4: Slot,
    pub slot5: Slot,
    pub slot7: Slot,
}

// Whether it is written is a rule of the mode and the type: its bits may stay the same.
fn mark(writes: bool, present: f32, new: f32) -> Slot
    ensures { result ≡ cond writes (written_slot new) (kept_slot present) }
{
    if writes {
        Slot {
            written: true,
            value: new,
        }
    } else {
        Slot {
            written: false,
            value: present,
        }
    }
}

// The quadrant antenna, whose design frequency stands in slot 5 too.
#[tactic(auto, using(std::proofs::lemmas::Bool::Decides::nat_tests), unfolding(model::specs::Types::type_ok))]
fn is_quadrant(parm: [f32; 20]) -> bool
    ensures { result ≡ eqb (jant_of (at parm 1)) 8 }
{
    matches!(
        AntennaType::try_from(jant(parm[1])),
        Ok(AntennaType::Quadrant)
    )
}

// What the call did on a copy, marked: mode 0 writes no slot, mode 1 slots 4 and 7, and slot 5 of
// type 8, mode 2 slot 4.
#[tactic(auto, unfolding(crate::specs::Preview::marked_by))]
fn marked(mode: u8, parm: [f32; 20], found: Found) -> Shown
    ensures { result ≡ marked_by mode found.gain parm found.parm }
{
    let after = found.parm;
    Shown {
        gain: found.gain,
        slot4: mark(mode != 0, parm[4], after[4]),
        slot5: mark((mode == 1) & is_quadrant(parm), parm[5], after[5]),
        slot7: mark(mode == 1, parm[7], after[7]),
    }
}

// What `setmaxgain` would do with the same arguments: its gain, and slots 4, 5 and 7, each marked
// as written or kept; or its refusal.
pub fn preview(s: Station, mhz: f32, design: f32) -> Result<Shown, Refusal>
    ensures { outcome result ≡ preview_of s.mode s.parm s.gainmax s.gainmaxb mhz design }
{
    let found = setmaxgain(s, mhz, design)?;
    Ok(marked(s.mode, s.parm, found))
}
