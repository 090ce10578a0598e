#![tactic(auto)]

// `trigfun`: the sines and cosines of the whole degrees. It is `trig_tables`; what these hold stands in the
// theorem `degree_tables`.
ghost use Rattle.std.specs.Prelude.{◌≡◌};
ghost use Rattle.trig.specs.Trig.{trig_tables};

use model::record::Trig;
use std::array;

const P1: f32 = 3.1415927;

// Degrees to radians.
const Q1: f32 = P1 / 180.0;

// Inner step of set-up. The source's ends stay: 90.05 and 90.105 degrees for 90, and 0.005 radians for 0.
pub fn trigfun() -> Trig
    ensures { result ≡ trig_tables }
{
    let mut a: [f32; 91] = array::from_fn(|z| sine::sin(z as f32 * Q1));
    let mut b: [f32; 91] = array::from_fn(|z| sine::cos(z as f32 * Q1));
    a[90] = sine::sin(90.05 * Q1);
    b[90] = sine::cos(90.105 * Q1);
    b[0] = sine::cos(0.005);
    Trig { a, b }
}
