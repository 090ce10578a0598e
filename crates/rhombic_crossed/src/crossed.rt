// The quadrant antenna, type 8, and the crossed dipoles, type 9, at one direction.
ghost use Rattle.std.specs.Prelude.{◌≡◌};
ghost use Rattle.model.specs.Types.{type_number};
ghost use Rattle.rhombic_crossed.specs.CrossedParts.{crossed_of, shift_of, vertical_of, horizontal_of};
ghost use Rattle.rhombic_crossed.specs.Crossed.{gain89};

use crate::complex::Complex;
use model::record::{Constants, Direction, Factors};
use model::types::AntennaType;

// Two crossed dipoles at one direction: the azimuth from each, and each one's factor.
#[derive(Clone, Copy)]
pub struct Crossed {
    pub aa1: f32,
    pub bb1: f32,
    pub z1: f32,
    pub z2: f32,
}

// The two dipoles, at 45 degrees to the azimuth's axis.
#[tactic(auto, unfolding(crate::specs::CrossedParts::crossed_of))]
pub(crate) fn dipoles(k: Constants, d: Direction) -> Crossed
    ensures { result ≡ crossed_of k d }
{
    let aa1 = 0.707 * (d.b1 - d.a1);
    let bb1 = 0.707 * (d.b1 + d.a1);
    let a11 = aa1 * d.b0;
    let a12 = bb1 * d.b0;
    let b2 = sine::cos(k.p11 * a11) - k.cp11;
    let b3 = sine::cos(k.p11 * a12) - k.cp11;
    Crossed {
        aa1,
        bb1,
        z1: b2 / (1.0 - a11 * a11).abs(),
        z2: b3 / (1.0 - a12 * a12),
    }
}

// The phase of the second dipole against the first, b4 and b5: type 9's are fed as one.
#[tactic(auto, unfolding(crate::specs::CrossedParts::shift_of))]
pub(crate) fn shift(kind: AntennaType, p11: f32, c: Crossed, b0: f32) -> Complex
    ensures { result ≡ shift_of (type_number kind) p11 c b0 }
{
    match kind {
        AntennaType::Quadrant => {
            let b4a = p11 * (c.bb1 - c.aa1) * b0;
            Complex {
                re: sine::cos(b4a),
                im: sine::sin(b4a),
            }
        }
        _ => Complex { re: 1.0, im: 0.0 },
    }
}

// A vertical field: s is the sine or the cosine of the elevation, g the ground's factor for it.
#[tactic(auto, unfolding(crate::specs::CrossedParts::vertical_of))]
pub(crate) fn vertical(c: Crossed, f: Complex, a0: f32, s: f32, g: Complex) -> Complex
    ensures { result ≡ vertical_of c f a0 s g }
{
    (-c.bb1 * a0 * s * c.z2 * g) * f + c.aa1 * a0 * s * c.z1 * g
}

// The horizontal field, with the ground's factors w5 and w6.
#[tactic(auto, unfolding(crate::specs::CrossedParts::horizontal_of))]
pub(crate) fn horizontal(c: Crossed, f: Complex, w5: f32, w6: f32) -> Complex
    ensures { result ≡ horizontal_of c f w5 w6 }
{
    let x = Complex {
        re: -c.aa1 * w5 * c.z2,
        im: -c.aa1 * w6 * c.z2,
    };
    let y = Complex {
        re: -c.bb1 * w5 * c.z1,
        im: -c.bb1 * w6 * c.z1,
    };
    x * f + y
}

// `gainrel`'s arm for 8, the quadrant antenna, and 9, the crossed dipoles.
#[tactic(auto, using(crate::proofs::crossed::Whole::crossed_whole), unfolding(crate::specs::CrossedParts::crossed_gain))]
pub fn gain_89(kind: AntennaType, k: Constants, w: Factors, d: Direction) -> f32
    ensures { result ≡ gain89 (type_number kind) k w d }
{
    let c = dipoles(k, d);
    let f = shift(kind, k.p11, c, d.b0);
    let raised = Complex { re: w.w3, im: w.w4 };
    let level = Complex {
        re: w.w9,
        im: w.w10,
    };
    let s = vertical(c, f, d.a0, d.a0, raised);
    let t = vertical(c, f, d.a0, d.b0, level);
    let h = horizontal(c, f, w.w5, w.w6);
    let w7s = s.power() + t.re * t.re + t.im * t.im;
    root::sqrt(w7s + h.power())
}
