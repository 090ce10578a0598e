// What is read off a mast's plate.
ghost use Rattle.std.specs.Prelude.{◌≡◌, ◌<◌};
ghost use Rattle.figures.specs.Figures.{leads_at};
ghost use Rattle.comparison.specs.Masts.{reading_of, mast_of};

use answers::Kind;
use dial::{Row, peak_azimuth};
use figures::{beam, behind, leads_at};

// A gain, in raised hundredths.
#[derive(Clone, Copy)]
pub struct Reading {
    pub kind: Kind,
    pub number: u32,
}

// What a buyer asks of one mast.
#[derive(Clone, Copy)]
pub struct Mast {
    // its letter
    pub name: u8,
    // at azimuth 0
    pub front: Reading,
    pub peak: Reading,
    // the peak's
    pub azimuth: u32,
    // in degrees
    pub beam: u32,
    // the greatest from 90 to 270
    pub behind: Reading,
}

#[tactic(auto, unfolding(crate::specs::Masts::reading_of))]
fn reading_at(row: &Row, v: usize) -> Reading
    requires { v < 360 }
    ensures { result ≡ reading_of row.now.numbers row.now.kinds v }
{
    Reading {
        kind: row.kinds[v],
        number: row.numbers[v],
    }
}

// A mast at the base, beside the other.
#[derive(Clone, Copy)]
pub(crate) struct AtBase {
    pub gain: Reading,
    pub leads: bool,
}

pub(crate) fn at_base(row: &Row, other: &Row, v: usize) -> AtBase
    requires { v < 360 }
    ensures gain { result.gain ≡ reading_of row.now.numbers row.now.kinds v }
    ensures leads { result.leads ≡ leads_at row.now.numbers row.now.kinds other.now.numbers v }
{
    AtBase {
        gain: reading_at(row, v),
        leads: leads_at(row, &other.numbers, v),
    }
}

#[tactic(auto, unfolding(crate::specs::Masts::mast_of))]
pub(crate) fn mast_of(name: u8, row: &Row) -> Mast
    ensures { result ≡ mast_of name row.now.numbers row.now.kinds }
{
    let azimuth = peak_azimuth(&row.numbers);
    let front = reading_at(row, 0);
    let peak = reading_at(row, azimuth);
    let behind = reading_at(row, behind(&row.numbers));
    let beam = beam(&row.numbers) as u32;
    Mast {
        name,
        front,
        peak,
        azimuth: azimuth as u32,
        beam,
        behind,
    }
}
