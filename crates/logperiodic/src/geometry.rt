// Where the elements of a log-periodic antenna are: the first half of `logparm`. Elements count
// from 1, the shortest.
ghost use Rattle.std.specs.Prelude.{◌≡◌, ◌<◌, ◌≤◌, replicate};
ghost use Rattle.floats.specs.Ops.{+0};
ghost use Rattle.logperiodic.specs.Geometry.{boom, taper, lengths, spacing, along, apex, raised, vertical, horizontal, layout};

// The design: lengths and heights of the longest element, nel, and of the shortest, the distance
// between them, and the feeder's impedance.
#[derive(Clone, Copy)]
pub struct Design {
    pub rlnel: f32,
    pub rl1: f32,
    pub hnel: f32,
    pub h1: f32,
    pub dc: f32,
    pub z0: f32,
}

// The boom's direction.
#[derive(Clone, Copy)]
pub struct Boom {
    pub sinth: f32,
    pub costh: f32,
}

// The angles of a vertical antenna at its apex, with the spacing and height factors that follow.
#[derive(Clone, Copy)]
pub struct Apex {
    pub tg23: f32,
    pub tg3: f32,
    pub sigma: f32,
    pub theta: f32,
}

// Lengths, places along and across, heights; and the spacing factor.
#[derive(Clone, Copy)]
pub struct Layout {
    pub rl: [f32; 36],
    pub x: [f32; 36],
    pub y: [f32; 36],
    pub h: [f32; 31],
    pub sigma: f32,
}

#[tactic(auto, unfolding(crate::specs::Geometry::boom))]
pub(crate) fn boom_of(d: Design) -> Boom
    ensures { result ≡ boom d }
{
    let sinth = (d.hnel - d.h1) / d.dc;
    Boom {
        sinth,
        costh: root::sqrt(1.0 - sinth * sinth),
    }
}

// tau: the ratio of an element's length to the next one's.
#[tactic(auto, unfolding(crate::specs::Geometry::taper))]
pub(crate) fn taper_of(d: Design, nel: usize) -> f32
    requires { nel ≤ 30 }
    ensures { result ≡ taper d nel }
{
    let rlr = d.rl1 / d.rlnel;
    let exl = 1.0 / (std::num::nearest_u32_to_f32(nel as u32) - 1.0);
    power::powf(rlr, exl)
}

// The lengths, from the longest down.
#[tactic(auto, unfolding(crate::specs::Geometry::lengths_to, crate::specs::Geometry::lengths))]
fn lengths_of(nel: usize, rlnel: f32, tau: f32) -> [f32; 36]
    requires { (2 ≤ nel) × (nel ≤ 30) }
    ensures { result ≡ lengths nel rlnel tau }
{
    let mut rl = [0.0f32; 36];
    rl[nel] = rlnel;
    for k in (1..nel).rev() {
        rl[k] = rl[k + 1] * tau;
    }
    rl
}

// From an element of length l to the shorter one next to it.
#[tactic(auto, unfolding(crate::specs::Geometry::spacing))]
fn spacing_of(l: f32, sigma: f32) -> f32
    ensures { result ≡ spacing l sigma }
{
    4.0 * l * sigma
}

// Places of elements 1 to nel in one direction: the first at start, each next one a spacing times
// step further.
#[tactic(auto, unfolding(crate::specs::Geometry::along_to, crate::specs::Geometry::along))]
fn places_along<const N: usize>(
    nel: usize,
    start: f32,
    step: f32,
    rl: [f32; 36],
    sigma: f32,
) -> [f32; N]
    requires { (1 ≤ nel) × (nel ≤ 30) × (nel < N) }
    ensures { result ≡ along (replicate N +0) nel start step rl sigma }
{
    let mut p = [0.0f32; N];
    p[1] = start;
    for k in 1..nel {
        p[k + 1] = p[k] + spacing_of(rl[k + 1], sigma) * step;
    }
    p
}

#[tactic(auto, unfolding(crate::specs::Geometry::apex))]
fn apex_of(d: Design, tau: f32, b: Boom) -> Apex
    ensures { result ≡ apex d tau b }
{
    let rld = d.rlnel - d.rl1;
    let dl1 = d.dc * d.rl1 / rld;
    let da1 = dl1 * b.costh;
    let dc1 = dl1 * b.sinth - d.rl1;
    let tg23 = b.sinth / b.costh;
    let tg3 = dc1 / da1;
    let alfa3 = arctangent::atan(tg3);
    let alfa2 = arctangent::atan(tg23) - alfa3;
    Apex {
        tg23,
        tg3,
        sigma: (1.0 - tau) / (4.0 * (b.sinth - tg3 * b.costh)),
        theta: sine::sin(alfa3) * b.costh / sine::sin(alfa2),
    }
}

// The heights of a vertical antenna's elements. The longest stands on its foot, without h0.
#[tactic(auto, unfolding(crate::specs::Geometry::raised_to, crate::specs::Geometry::raised))]
fn raised_of(nel: usize, rl: [f32; 36], theta: f32, h0: f32) -> [f32; 31]
    requires { (2 ≤ nel) × (nel ≤ 30) }
    ensures { result ≡ raised nel rl theta h0 }
{
    let mut h = [0.0f32; 31];
    h[nel] = rl[nel] * (1.0 + theta);
    for k in 1..nel {
        h[k] = rl[k] * (1.0 + theta) + h0;
    }
    h
}

#[tactic(auto, unfolding(crate::specs::Geometry::vertical))]
fn vertical_layout(d: Design, nel: usize, tau: f32, b: Boom) -> Layout
    requires { (2 ≤ nel) × (nel ≤ 30) }
    ensures { result ≡ vertical d nel tau b }
{
    let a = apex_of(d, tau, b);
    let rl = lengths_of(nel, d.rlnel, tau);
    let h0 = d.h1 - d.rl1 * (1.0 + a.theta);
    let h = raised_of(nel, rl, a.theta, h0);
    let y1 = rl[1] / (a.tg23 * (1.0 - a.tg3 / a.tg23));
    Layout {
        rl,
        x: [0.0; 36],
        y: places_along(nel, y1, b.costh, rl, a.sigma),
        h,
        sigma: a.sigma,
    }
}

#[tactic(auto, unfolding(crate::specs::Geometry::horizontal))]
fn horizontal_layout(d: Design, nel: usize, tau: f32, b: Boom) -> Layout
    requires { (2 ≤ nel) × (nel ≤ 30) }
    ensures { result ≡ horizontal d nel tau b }
{
    let alftan = (d.rlnel - d.rl1) / d.dc;
    let sigma = (1.0 - tau) / (4.0 * alftan);
    let rl = lengths_of(nel, d.rlnel, tau);
    let x1 = rl[1] / alftan * b.costh;
    Layout {
        rl,
        x: places_along(nel, x1, b.costh, rl, sigma),
        y: [0.0; 36],
        h: places_along(nel, d.h1, b.sinth, rl, sigma),
        sigma,
    }
}

// Type 5 is horizontal, type 6 vertical.
#[tactic(auto, unfolding(crate::specs::Geometry::layout))]
pub(crate) fn layout_of(iant: u32, d: Design, nel: usize, tau: f32, b: Boom) -> Layout
    requires { (2 ≤ nel) × (nel ≤ 30) }
    ensures { result ≡ layout iant d nel tau b }
{
    if iant == 5 {
        horizontal_layout(d, nel, tau, b)
    } else {
        vertical_layout(d, nel, tau, b)
    }
}
