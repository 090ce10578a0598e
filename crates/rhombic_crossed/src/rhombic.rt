// The horizontal rhombic, type 7, at one direction.
ghost use Rattle.std.specs.Prelude.{◌≡◌};
ghost use Rattle.rhombic_crossed.specs.RhombicParts.{legs_of, current_of, horizontal_image, vertical_image};
ghost use Rattle.rhombic_crossed.specs.Rhombic.{gain7};

use crate::complex::Complex;
use model::record::{Constants, Direction, Factors};

// The rhombus's legs at one direction.
#[derive(Clone, Copy)]
pub struct Legs {
    pub t5: f32,
    pub t6: f32,
    pub a6: f32,
    pub b6: f32,
}

#[tactic(auto, unfolding(crate::specs::RhombicParts::legs_of))]
pub(crate) fn rhombus(k: Constants, d: Direction) -> Legs
    ensures { result ≡ legs_of k d }
{
    let a2 = k.sinth * d.b1 + k.costh * d.a1;
    let b2 = k.costh * d.b1 - k.sinth * d.a1;
    let a3 = k.sinth * d.b1 - k.costh * d.a1;
    let b3 = k.costh * d.b1 + k.sinth * d.a1;
    let t5 = a2 * d.b0 - 1.0;
    let t6 = a3 * d.b0 - 1.0;
    Legs {
        t5,
        t6,
        a6: a2 / t5 - a3 / t6,
        b6: b2 / t5 + b3 / t6,
    }
}

// The current's phases along legs of length sl, r1 and r2.
#[tactic(auto, unfolding(crate::specs::RhombicParts::current_of))]
pub(crate) fn current(sl: f32, t5: f32, t6: f32) -> Complex
    ensures { result ≡ current_of sl t5 t6 }
{
    let t7 = t5 + t6;
    let d2 = sine::cos(sl * t5);
    let d3 = sine::cos(sl * t6);
    let d4 = sine::cos(sl * t7);
    let c2 = sine::sin(sl * t5);
    let c3 = sine::sin(sl * t6);
    let c4 = sine::sin(sl * t7);
    Complex {
        re: 1.0 - d3 - d2 + d4,
        im: c4 - c3 - c2,
    }
}

// The horizontal field with its image, r3 and r4.
#[tactic(auto, unfolding(crate::specs::RhombicParts::horizontal_image))]
pub(crate) fn horizontal_image(w: Factors, a7: f32, b7: f32) -> Complex
    ensures { result ≡ horizontal_image w a7 b7 }
{
    Complex {
        re: 1.0 + w.w5 * b7 + w.w6 * a7,
        im: w.w5 * a7 - w.w6 * b7,
    }
}

// The vertical field with its image, r5 and r6.
#[tactic(auto, unfolding(crate::specs::RhombicParts::vertical_image))]
pub(crate) fn vertical_image(w: Factors, a7: f32, b7: f32) -> Complex
    ensures { result ≡ vertical_image w a7 b7 }
{
    Complex {
        re: 1.0 - w.w3 * b7 - w.w4 * a7,
        im: w.w3 * a7 - w.w4 * b7,
    }
}

// `gainrel`'s arm 7: the horizontal rhombic.
#[tactic(auto, using(crate::proofs::rhombic::Whole::rhombic_whole), unfolding(crate::specs::RhombicParts::rhombic_gain))]
pub fn gain_7(k: Constants, w: Factors, d: Direction) -> f32
    ensures { result ≡ gain7 k w d }
{
    let l = rhombus(k, d);
    let r = current(k.sl, l.t5, l.t6);
    let a7 = sine::sin(k.h1 * d.a0);
    let b7 = sine::cos(k.h1 * d.a0);
    let h = r * horizontal_image(w, a7, b7);
    let v = r * vertical_image(w, a7, b7);
    let h6 = 30.0 * l.b6 * root::sqrt(h.power());
    let w3x = 30.0 * d.a0 * l.a6 * root::sqrt(v.power());
    root::sqrt(h6 * h6 + w3x * w3x)
}
