// The dipole arrays, types 1 to 4, at one direction.
ghost use Rattle.std.specs.Prelude.{◌≡◌};
ghost use Rattle.dipole_arrays.specs.Rows.{il_count};
ghost use Rattle.dipole_arrays.specs.Dipoles.{dipole_factor, row_factor, ground_factor, array_gain, screen_reflection, screen_front, screen_factor, reflector_factor, gain1, gain2, gain3, gain4};

use model::record::{Constants, Direction, Factors};

// How many il there are in 0..x as i32 + 1.
fn il_count_of(x: f32) -> u32
    ensures { result ≡ il_count x }
{
    floats::rounding::turns(numeric::float::to_i32(x))
}

// The factor of n dipoles in a row, g being the phase from one to the next.
#[tactic(auto, unfolding(crate::specs::Rows::sine_sum, crate::specs::Rows::cosine_sum, crate::specs::Dipoles::row_factor))]
fn row_factor(g: f32, n: u32) -> f32
    ensures { result ≡ row_factor g n }
{
    let mut u1: f32 = 0.0;
    let mut u2: f32 = 0.0;
    for il in 0..n {
        let u12 = g * std::num::nearest_u32_to_f32(il);
        u2 = u2 + sine::sin(u12);
        u1 = u1 + sine::cos(u12);
    }
    root::sqrt(u1 * u1 + u2 * u2)
}

// One dipole: p its electrical half length, c the cosine of p.
#[tactic(auto, unfolding(crate::specs::Dipoles::dipole_factor))]
fn dipole_factor(p: f32, c: f32, d: Direction) -> f32
    ensures { result ≡ dipole_factor p c d }
{
    let a11 = d.a1 * d.b0;
    let b2 = sine::cos(p * a11) - c;
    let w0 = (1.0 - a11 * a11).abs();
    b2 / w0
}

// The dipole over ground.
#[tactic(auto, unfolding(crate::specs::Dipoles::ground_factor))]
fn ground_factor(w: Factors, d: Direction) -> f32
    ensures { result ≡ ground_factor w d }
{
    let w7t = d.a1 * d.a0;
    let w7 = w7t * w7t * (w.w4 * w.w4 + w.w3 * w.w3);
    let w8 = d.b1 * d.b1 * (w.w5 * w.w5 + w.w6 * w.w6);
    root::sqrt((w7 + w8).abs())
}

// How much type 1's aperiodic screen reflects.
#[tactic(auto, unfolding(crate::specs::Dipoles::screen_reflection))]
fn screen_reflection(fr1: f32, b0: f32) -> f32
    ensures { result ≡ screen_reflection fr1 b0 }
{
    let fx = fr1 * b0;
    let fy = 1.0 + 1.0 / (fx * fx);
    1.0 - 1.0 / root::sqrt(fy)
}

// Type 1 before its screen.
#[tactic(auto, unfolding(crate::specs::Dipoles::screen_front))]
fn screen_front(q2: f32, p11s: f32, d: Direction) -> f32
    ensures { result ≡ screen_front q2 p11s d }
{
    let c = sine::cos(p11s * d.b0 * d.b1);
    root::sqrt((1.0 + q2 * q2 - 2.0 * q2 * c).abs())
}

// Type 1's screen.
#[tactic(auto, unfolding(crate::specs::Dipoles::screen_factor))]
fn screen_factor(k: Constants, d: Direction, behind: bool) -> f32
    ensures { result ≡ screen_factor k d behind }
{
    let q2 = screen_reflection(k.fr1, d.b0);
    if behind {
        return 1.0 - q2;
    }
    screen_front(q2, k.p11s, d)
}

// The tuned reflector of types 2 and 3.
#[tactic(auto, unfolding(crate::specs::Dipoles::reflector_factor))]
fn reflector_factor(k: Constants, d: Direction) -> f32
    ensures { result ≡ reflector_factor k d }
{
    let c = sine::cos(k.p11 - k.p11 * d.b0 * d.b1);
    root::sqrt((1.0 + k.q2 * k.q2 + 2.0 * k.q2 * c).abs())
}

// The arms' product: p and c are the dipole's, z2 what stands behind or beside it, pfb the phase
// from one dipole of the row to the next before the slew, x the row's last il.
#[tactic(auto, unfolding(crate::specs::Dipoles::array_gain))]
fn array_gain(w: Factors, d: Direction, p: f32, c: f32, z2: f32, pfb: f32, sl: f32, x: f32) -> f32
    ensures { result ≡ array_gain w d p c z2 pfb sl x }
{
    let z1 = dipole_factor(p, c, d);
    let asl = d.a1 - sl;
    let z3 = row_factor(pfb * asl, il_count_of(x));
    let z4 = ground_factor(w, d);
    z1 * z2 * z3 * z4
}

// Multiband aperiodic reflector dipole array.
#[tactic(auto, unfolding(crate::specs::Dipoles::gain1))]
pub fn gain_1(k: Constants, w: Factors, d: Direction, behind: bool) -> f32
    ensures { result ≡ gain1 k w d behind }
{
    let z2 = screen_factor(k, d, behind);
    array_gain(w, d, k.p11, k.cp11, z2, k.pfr * d.b0, k.sl, k.r2 - 1.0)
}

// Dual-band centre-fed tuned reflector dipole array.
#[tactic(auto, unfolding(crate::specs::Dipoles::gain2))]
pub fn gain_2(k: Constants, w: Factors, d: Direction) -> f32
    ensures { result ≡ gain2 k w d }
{
    let z2 = reflector_factor(k, d);
    array_gain(w, d, k.p11, k.cp11, z2, k.pfr * d.b0, k.sl, k.r2 - 1.0)
}

// Dual-band end-fed tuned reflector dipole array.
#[tactic(auto, unfolding(crate::specs::Dipoles::gain3))]
pub fn gain_3(k: Constants, w: Factors, d: Direction) -> f32
    ensures { result ≡ gain3 k w d }
{
    let z2 = reflector_factor(k, d);
    let pfb = k.pfr * d.b0 * 2.0;
    array_gain(w, d, k.pfr, k.cpfr, z2, pfb, k.sl, k.r2 / 2.0 - 1.0)
}

// Tropical antennas.
#[tactic(auto, unfolding(crate::specs::Dipoles::gain4))]
pub fn gain_4(k: Constants, w: Factors, d: Direction) -> f32
    ensures { result ≡ gain4 k w d }
{
    let pfb = k.pfr * d.b0;
    let z2 = row_factor(pfb * d.b1, il_count_of(k.r3 - 1.0));
    array_gain(w, d, k.p11, k.cp11, z2, pfb, k.sl, k.r2 - 1.0)
}
