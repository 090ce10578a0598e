// The greatest and the least of levels in a ring, the earlier of two that tie.
ghost use Rattle.std.specs.Prelude.{◌≡◌};
ghost use mathlib.Core.List.{foldl, map};
ghost use Rattle.std.specs.Float.{binary32};
ghost use Rattle.std.specs.Float.Ieee.{of_bits};
ghost use Rattle.levels.specs.Shown.{greater, lesser};

use numeric::bits::float_of;

#[derive(Clone, Copy)]
pub(crate) struct Extremes {
    pub(crate) greatest: f32,
    pub(crate) least: f32,
}

#[tactic(auto, unfolding(crate::specs::Shown::greater))]
fn the_greater(earlier: f32, later: f32) -> f32
    ensures { result ≡ greater earlier later }
{
    if earlier < later { later } else { earlier }
}

#[tactic(auto, unfolding(crate::specs::Shown::lesser))]
fn the_lesser(earlier: f32, later: f32) -> f32
    ensures { result ≡ lesser earlier later }
{
    if later < earlier { later } else { earlier }
}

// The extremes of earlier levels and of these.
pub(crate) fn extremes_over(levels: &[u32], earlier: Extremes) -> Extremes
    ensures greatest_value { result.greatest ≡ foldl greater earlier.greatest (map (of_bits binary32) levels.now) }
    ensures least_value { result.least ≡ foldl lesser earlier.least (map (of_bits binary32) levels.now) }
{
    let mut greatest = earlier.greatest;
    let mut least = earlier.least;
    for w in levels {
        let x = float_of(*w);
        greatest = the_greater(greatest, x);
        least = the_lesser(least, x);
    }
    Extremes { greatest, least }
}
