// Words of 32 bits behind a header of up to 8 bits: word k starts that many bits into byte 4 k.
ghost use Rattle.std.specs.Prelude.{◌≡◌, ◌+◌, ◌-◌, ◌*◌, ◌/◌, ◌%◌, ◌^◌, ◌≤◌, ◌<◌, [], ◌∷◌, length, get_or};
ghost use Rattle.words.specs.Digits.{digits};
ghost use Rattle.words.specs.Laid.{laid};
ghost use Rattle.station.specs.Record.{word_in, words_in};

use words::big_endian;

// The word in five bytes: the 32 bits after the header's.
#[tactic(auto, unfolding(crate::specs::Record::word_in, words::specs::Digits::after))]
fn word_of(a: u8, b: u8, c: u8, d: u8, e: u8, header: u32) -> u32
    requires { header ≤ 8 }
    ensures { result ≡ word_in header (a ∷ b ∷ c ∷ d ∷ e ∷ []) }
{
    let high = ((a as u64) * 256 + (b as u64)) * 256 + (c as u64);
    let window = (high * 256 + (d as u64)) * 256 + (e as u64);
    ((window >> (8 - header)) % 0x1_0000_0000) as u32
}

// Word k of a record.
#[tactic(auto, using(crate::proofs::Unpacking::word_at, words::proofs::Digits::below_all))]
pub fn word_at(bytes: &[u8], k: usize, header: u32) -> u32
    requires { (length bytes.now ≡ 225) × (k < 56) × (header ≤ 8) }
    ensures { result ≡ get_or (words_in header bytes.now) k 0 }
{
    let at = 4 * k;
    word_of(
        bytes[at],
        bytes[at + 1],
        bytes[at + 2],
        bytes[at + 3],
        bytes[at + 4],
        header,
    )
}

// 2 to the number of the header's bits.
fn unit(header: u32) -> u64
    requires { header ≤ 8 }
    ensures { result ≡ 2 ^ header }
{
    1u64 << header
}

// Writes the first 32 bits of carry, which are as many as the header's, and w, and returns the rest.
pub fn put_word(out: &mut [u8], at: usize, carry: u32, w: u32, header: u32) -> u32
    requires { (at + 4 ≤ length out.old) × (carry < 2 ^ header) × (header ≤ 8) }
    ensures rest { result ≡ (carry * 2 ^ 32 + w) % 2 ^ header }
    ensures bytes { out.new ≡ laid out.old at (digits 256 4 ((carry * 2 ^ 32 + w) / 2 ^ header)) }
{
    let joined = (carry as u64) * 0x1_0000_0000 + (w as u64);
    big_endian::put_word(out, at, (joined >> header) as u32);
    (joined % unit(header)) as u32
}

// The last byte: the bits that are left, which are as many as the header's, then spare bits.
pub fn last_byte(carry: u32, header: u32) -> u8
    requires { (carry < 2 ^ header) × (header ≤ 8) }
    ensures { result ≡ carry * 2 ^ (8 - header) }
{
    ((carry as u64) * unit(8 - header)) as u8
}
