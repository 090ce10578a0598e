// The direction that the patterns read: the azimuth folded into the first quadrant of the tables of
// sines and cosines.
ghost use Rattle.std.specs.Prelude.{◌≡◌, ◌≤◌, ◌&&◌};
ghost use Rattle.std.specs.Float.Ieee.{lt, le};
ghost use Rattle.directions.specs.Azimuth.{back180, in_first, in_second, in_third, quadrant_of, behind_screen, signed, direction_of};

use crate::turn::turned;
use model::record::{Direction, Trig};

// Where the azimuth's sine and cosine stand in the tables, and whether each is negated.
#[derive(Clone, Copy)]
pub struct Quadrant {
    pub jv: usize,
    pub an: bool,
    pub bn: bool,
}

// low < v <= high.
fn is_past(low: f32, v: f32, high: f32) -> bool
    ensures { result ≡ (lt low v && le v high) }
{
    low < v && v <= high
}

// The first quadrant, also one turn further.
#[tactic(auto, unfolding(crate::specs::Azimuth::in_first, floats::specs::Ranges::between))]
fn in_first(v: f32) -> bool
    ensures { result ≡ in_first v }
{
    floats::range::is_between(v, 0.0, 90.0) | floats::range::is_between(v, 360.0, 450.0)
}

// The second quadrant, also one turn further.
#[tactic(auto, unfolding(crate::specs::Azimuth::in_second))]
fn in_second(v: f32) -> bool
    ensures { result ≡ in_second v }
{
    is_past(90.0, v, 180.0) | is_past(450.0, v, 540.0)
}

// The third quadrant.
#[tactic(auto, unfolding(crate::specs::Azimuth::in_third))]
fn in_third(v: f32) -> bool
    ensures { result ≡ in_third v }
{
    is_past(180.0, v, 270.0)
}

// 180 less the whole degrees of x, brought into 0 to 90.
#[tactic(auto, unfolding(crate::specs::Azimuth::back180))]
fn back_from_180(x: f32) -> usize
    ensures value { result ≡ back180 x }
    ensures upper_bound { result ≤ 90 }
{
    180 - numeric::float::to_i32(x).clamp(90, 180) as usize
}

// The azimuth's quadrant; all beyond the ranges is in the fourth.
#[tactic(auto, unfolding(crate::specs::Azimuth::quadrant_of))]
pub fn quadrant_of(v: f32) -> Quadrant
    ensures value { result ≡ quadrant_of v }
    ensures jv_bound { result.jv ≤ 90 }
{
    if in_first(v) {
        return Quadrant {
            jv: floats::rounding::ifix(turned(v)),
            an: false,
            bn: false,
        };
    }
    if in_second(v) {
        return Quadrant {
            jv: back_from_180(turned(v)),
            an: false,
            bn: true,
        };
    }
    if in_third(v) {
        return Quadrant {
            jv: floats::rounding::ifix(v - 180.0),
            an: true,
            bn: true,
        };
    }
    Quadrant {
        jv: floats::rounding::ifix(360.0 - v),
        an: true,
        bn: false,
    }
}

// x, negated where the flag says so.
fn with_sign(negated: bool, x: f32) -> f32
    ensures { result ≡ signed negated x }
{
    if negated { -x } else { x }
}

// The direction by the tables of sines and cosines.
// Inner step: of `pattern`, whose elevation and quadrant are whole degrees of 0 to 90.
#[tactic(auto, unfolding(crate::specs::Azimuth::direction_of))]
pub fn direction_of(t: &Trig, iu: usize, q: Quadrant) -> Direction
    requires { (iu ≤ 90) × (q.jv ≤ 90) }
    ensures { result ≡ direction_of t.now.a t.now.b iu q }
{
    Direction {
        a0: t.a[iu],
        b0: t.b[iu],
        a1: with_sign(q.an, t.a[q.jv]),
        b1: with_sign(q.bn, t.b[q.jv]),
    }
}

// Whether type 1's screen lies between the dipoles and the direction.
#[tactic(auto, unfolding(crate::specs::Azimuth::behind_screen))]
pub fn behind_screen(v: f32) -> bool
    ensures { result ≡ behind_screen v }
{
    let kv = numeric::float::to_i32(turned(v));
    90 <= kv && kv <= 270
}
