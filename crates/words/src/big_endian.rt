// Words of four bytes, the most significant byte first.
ghost use Rattle.std.specs.Prelude.{◌≡◌, ◌+◌, ◌≤◌, [], ◌∷◌, length};
ghost use Rattle.words.specs.Digits.{number, digits};
ghost use Rattle.words.specs.Laid.{laid};
ghost use Rattle.words.specs.Floats.{float_at};

use crate::bytes::push_bytes;
use numeric::bits::float_of;

// Four bytes as one number.
#[tactic(auto, unfolding(crate::specs::Digits::after))]
fn word_of(a: u8, b: u8, c: u8, d: u8) -> u32
    ensures { result ≡ number 256 (a ∷ b ∷ c ∷ d ∷ []) }
{
    u32::from_be_bytes([a, b, c, d])
}

// The float at `at`.
#[tactic(auto, unfolding(crate::specs::Floats::float_at))]
pub fn float_at(bytes: &[u8], at: usize) -> f32
    requires { at + 4 ≤ length bytes.now }
    ensures { result ≡ float_at bytes.now at }
{
    float_of(word_of(bytes[at], bytes[at + 1], bytes[at + 2], bytes[at + 3]))
}

// Writes the four bytes of v at `at`.
#[tactic(auto, using(crate::proofs::Digits::be_bytes))]
pub fn put_word(out: &mut [u8], at: usize, v: u32)
    requires { at + 4 ≤ length out.old }
    ensures { out.new ≡ laid out.old at (digits 256 4 v) }
{
    push_bytes(out, at, &v.to_be_bytes());
}
