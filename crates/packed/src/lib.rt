#![tactic(auto)]

// What the calls for Rust and C callers share. An answer that is one number of 64 bits has a kind in the
// upper half and a value in the lower (specs/Packed.antt); a word is read as a mode, and twenty, six or
// thirty floats of a slice are taken as arrays of their own, each equal to its definition
// (specs/Lists.antt).
pub mod arrays;
pub mod lent;

ghost use Rattle.std.specs.Prelude.{◌≡◌};
ghost use Rattle.answers.specs.Outcome.{number, number_of, outcome};
ghost use Rattle.packed.specs.Packed.{refused_as, refused_at, counted};

use answers::Refusal;

// Refused, with the number.
const REFUSED: u64 = 0x3_0000_0000;

// Refused, with the number times 65,536 and a place.
const REFUSED_AT: u64 = 0x4_0000_0000;

// Kind 3 with the refusal's number.
pub fn refused(r: Refusal) -> u64
    ensures { result ≡ refused_as (number r) }
{
    REFUSED + u8::from(r) as u64
}

// Kind 4 with the refusal's number and a place.
pub fn refused_at(r: Refusal, place: u32) -> u64
    ensures { result ≡ refused_at (number r) place }
{
    REFUSED_AT + (u8::from(r) as u64 * 65536 + place as u64)
}

// The value, or kind 3 with the refusal's number.
#[tactic(auto, unfolding(crate::specs::Packed::counted))]
pub fn counted(answer: Result<u64, Refusal>) -> u64
    ensures { result ≡ counted (outcome answer) }
{
    match answer {
        Ok(n) => n,
        Err(r) => refused(r),
    }
}

// 0, or the refusal's number.
pub fn status(answer: Result<(), Refusal>) -> u32
    ensures { result ≡ number_of answer }
{
    match answer {
        Ok(()) => 0,
        Err(r) => u8::from(r) as u32,
    }
}
