// `logparm`: the elements of a log-periodic antenna, types 5 and 6, with their places, currents and
// phases.
ghost use Rattle.std.specs.Prelude.{◌≡◌, ◌≤◌};
ghost use Rattle.logperiodic.specs.Active.{Listed};
ghost use Rattle.logperiodic.specs.LogPeriodic.{fed, elements, log_parm};

use crate::active::{Active, Feed, active_of, band_of, excited_of, loudest_of, normalised_of};
use crate::current::{Band, curcal};
use crate::geometry::{Boom, Design, Layout, boom_of, layout_of, taper_of};
use model::record::Elements;

// The elements, and the boom's direction.
#[derive(Clone, Copy)]
pub struct LogPeriodic {
    pub elements: Elements,
    pub boom: Boom,
}

#[tactic(auto, unfolding(crate::specs::LogPeriodic::fed))]
fn feed_of(a: Active, s: Band, rl: [f32; 36], beta: f32) -> Feed
    requires { Listed a.iek a.nat }
    ensures { result ≡ fed a s rl beta }
{
    let x = excited_of(a, s, curcal(s), rl);
    let top = loudest_of(a, x.ria, x.fi);
    normalised_of(a, x.ria, x.fi, top, beta, rl)
}

#[tactic(auto, unfolding(crate::specs::LogPeriodic::elements))]
fn elements_of(t: Layout, a: Active, f: Feed) -> Elements
    ensures { result ≡ elements t a f }
{
    // the borrow checker takes no array straight from field to field
    let fi = f.fi;
    let rim = f.rim;
    let x = t.x;
    let y = t.y;
    let iek = a.iek;
    let rl = t.rl;
    let h = t.h;
    Elements {
        fi,
        rim,
        x,
        y,
        iek,
        rl,
        h,
        nat: a.nat,
    }
}

// Inner step of set-up, for the counts of elements that it accepts: the elements of a design of nel
// elements at the wavelength rlambda, whose phase per metre is beta.
#[tactic(auto, unfolding(crate::specs::LogPeriodic::log_parm, crate::specs::LogPeriodic::elements))]
pub fn logparm(iant: u32, nel: usize, d: Design, rlambda: f32, beta: f32) -> LogPeriodic
    requires { (2 ≤ nel) × (nel ≤ 30) }
    ensures value { result ≡ log_parm iant nel d rlambda beta }
    ensures listed { Listed result.elements.iek result.elements.nat }
{
    let boom = boom_of(d);
    let tau = taper_of(d, nel);
    let t = layout_of(iant, d, nel, tau, boom);
    let s = band_of(d.z0, rlambda, t.sigma, tau);
    let a = active_of(s, t.rl, nel);
    let f = feed_of(a, s, t.rl, beta);
    LogPeriodic {
        elements: elements_of(t, a, f),
        boom,
    }
}
