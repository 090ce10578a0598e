// A station's 56 floats in the record's order: `parm`, `gainmax` row by row, `gainmaxb`.
ghost use Rattle.std.specs.Prelude.{◌≡◌, ◌<◌, get_or, set};
ghost use Rattle.std.specs.Float.{nan};
ghost use Rattle.floats.specs.Ranges.{all_finite};
ghost use Rattle.station.specs.Record.{floats_of, station_of, zeros};

use crate::Station;
use floats::range;

// A station of zeros.
#[tactic(auto, unfolding(crate::specs::Record::zeros))]
pub fn blank(mode: u8) -> Station
    ensures { result ≡ zeros mode }
{
    Station {
        mode,
        parm: [0.0; 20],
        gainmax: [0.0; 6],
        gainmaxb: [0.0; 30],
    }
}

// Float k.
pub fn float_at(s: Station, k: usize) -> f32
    requires { k < 56 }
    ensures { result ≡ get_or (floats_of s) k nan }
{
    if k < 20 {
        return s.parm[k];
    }
    if k < 26 {
        let i = k - 20;
        return s.gainmax[i];
    }
    let i = k - 26;
    s.gainmaxb[i]
}

// The station with x as float k.
#[tactic(auto, using(crate::proofs::Arrays::with_parm, crate::proofs::Arrays::with_gainmax, crate::proofs::Arrays::with_gainmaxb))]
pub fn with_float(s: Station, k: usize, x: f32) -> Station
    requires { k < 56 }
    ensures { result ≡ station_of s.mode (set (floats_of s) k x) }
{
    let mut out = s;
    if k < 20 {
        out.parm[k] = x;
        return out;
    }
    if k < 26 {
        let i = k - 20;
        out.gainmax[i] = x;
        return out;
    }
    let i = k - 26;
    out.gainmaxb[i] = x;
    out
}

#[tactic(auto, using(crate::proofs::Finite::all_finite_append))]
pub fn all_finite(s: Station) -> bool
    ensures { result ≡ all_finite (floats_of s) }
{
    let parm = s.parm;
    let gainmax = s.gainmax;
    let gainmaxb = s.gainmaxb;
    range::all_finite(&parm) & range::all_finite(&gainmax) & range::all_finite(&gainmaxb)
}
