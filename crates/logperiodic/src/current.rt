// The currents of a log-periodic antenna's active elements: `parabol`, `curcal`, and what they give
// an element of some length.
ghost use Rattle.std.specs.Prelude.{◌≡◌};
ghost use Rattle.logperiodic.specs.Current.{parabol_of, vertexed, half_way, three_quarters, curcal_of, height_at, current_at, slope, phase_at};

use floats::range::{is_between, is_from_to};

// y = aa x^2 + bb x + cc.
#[derive(Clone, Copy)]
pub struct Parabola {
    pub aa: f32,
    pub bb: f32,
    pub cc: f32,
}

// The lengths between which an element is active, from the shortest to the longest: rl0 has the
// largest current, and rlc is the resonant length.
#[derive(Clone, Copy)]
pub struct Band {
    pub rllow: f32,
    pub rl0: f32,
    pub rlc: f32,
    pub rlup: f32,
}

// The current over the length: the source's segments 0 to 4, from the shortest lengths up.
#[derive(Clone, Copy)]
pub struct Curves {
    pub foot: Parabola,
    pub rise: Parabola,
    pub top: Parabola,
    pub fall: Parabola,
    pub tail: Parabola,
}

// `parabol`: the parabola through three points.
#[tactic(auto, unfolding(crate::specs::Current::parabol_of))]
pub(crate) fn parabol(x1: f32, x2: f32, x3: f32, y1: f32, y2: f32, y3: f32) -> Parabola
    ensures { result ≡ parabol_of x1 x2 x3 y1 y2 y3 }
{
    let dd = x1 * x1 * (x2 - x3) - x1 * (x2 * x2 - x3 * x3) + (x2 * x2 * x3 - x3 * x3 * x2);
    let da = y1 * (x2 - x3) - x1 * (y2 - y3) + (y2 * x3 - x2 * y3);
    let db = x1 * x1 * (y2 - y3) - y1 * (x2 * x2 - x3 * x3) + (x2 * x2 * y3 - x3 * x3 * y2);
    let dc = x1 * x1 * (x2 * y3 - y2 * x3) - x1 * (x2 * x2 * y3 - y2 * x3 * x3)
        + y1 * (x2 * x2 * x3 - x3 * x3 * x2);
    Parabola {
        aa: da / dd,
        bb: db / dd,
        cc: dc / dd,
    }
}

// The parabola through (x2, y2) with its vertex at (x1, y1).
#[tactic(auto, unfolding(crate::specs::Current::vertexed))]
fn vertex_parabola(x1: f32, y1: f32, x2: f32, y2: f32) -> Parabola
    ensures { result ≡ vertexed x1 y1 x2 y2 }
{
    let aa = (y2 - y1) / ((x2 - x1) * (x2 - x1));
    Parabola {
        aa,
        bb: -2.0 * aa * x1,
        cc: y1 + x1 * x1 * aa,
    }
}

// Half of the way from rllow to rl0.
#[tactic(auto, unfolding(crate::specs::Current::half_way))]
fn half_way(s: Band) -> f32
    ensures { result ≡ half_way s }
{
    s.rllow + (s.rl0 - s.rllow) / 2.0
}

#[tactic(auto, unfolding(crate::specs::Current::three_quarters))]
fn three_quarters(s: Band) -> f32
    ensures { result ≡ three_quarters s }
{
    s.rllow + 3.0 * (s.rl0 - s.rllow) / 4.0
}

// `curcal`: the current over the length.
#[tactic(auto, unfolding(crate::specs::Current::curcal_of))]
pub(crate) fn curcal(s: Band) -> Curves
    ensures { result ≡ curcal_of s }
{
    let half = half_way(s);
    let three = three_quarters(s);
    let quarter = s.rllow + (s.rl0 - s.rllow) / 4.0;
    let over = s.rl0 + (s.rlc - s.rl0) / 2.0;
    let beyond = s.rlc + (s.rlup - s.rlc) / 2.0;
    Curves {
        foot: parabol(s.rllow, quarter, half, 0.316, 0.676, 0.876),
        rise: parabol(s.rl0, three, half, 1.0, 0.976, 0.876),
        top: vertex_parabola(s.rl0, 1.0, three, 0.976),
        fall: parabol(s.rl0, over, s.rlc, 1.0, 0.922, 0.707),
        tail: parabol(beyond, s.rlup, s.rlc, 0.501, 0.316, 0.707),
    }
}

// The square binds first.
#[tactic(auto, unfolding(crate::specs::Current::height_at))]
fn height_at(p: Parabola, l: f32) -> f32
    ensures { result ≡ height_at p l }
{
    p.aa * (l * l) + p.bb * l + p.cc
}

// The current of an element of length l; 0 where no segment holds.
#[tactic(auto, unfolding(crate::specs::Current::current_at))]
pub(crate) fn current_of(s: Band, p: Curves, l: f32) -> f32
    ensures { result ≡ current_at s p l }
{
    let half = half_way(s);
    let three = three_quarters(s);
    if is_from_to(l, s.rllow, half) {
        height_at(p.foot, l)
    } else if is_from_to(l, half, three) {
        height_at(p.rise, l)
    } else if is_between(l, three, s.rl0) {
        height_at(p.top, l)
    } else if is_between(l, s.rl0, s.rlc) {
        height_at(p.fall, l)
    } else if is_between(l, s.rlc, s.rlup) {
        height_at(p.tail, l)
    } else {
        0.0
    }
}

// The phase's degrees per length, below rl0 and above.
#[tactic(auto, unfolding(crate::specs::Current::slope))]
fn slope_of(s: Band, l: f32) -> f32
    ensures { result ≡ slope s l }
{
    if is_between(l, s.rllow, s.rl0) {
        150.0 / (s.rl0 - s.rllow)
    } else {
        142.0 / (s.rlup - s.rl0)
    }
}

// The phase of an element of length l in degrees, 0 at rl0.
#[tactic(auto, unfolding(crate::specs::Current::phase_at))]
pub(crate) fn phase_of(s: Band, l: f32) -> f32
    ensures { result ≡ phase_at s l }
{
    let af = slope_of(s, l);
    let bf = -af * s.rl0;
    af * l + bf
}
