// Front-to-back: what the front has over the strongest number behind.
ghost use Rattle.std.specs.Prelude.{◌≡◌, fold, slice_range};
ghost use Rattle.floats.specs.Ops.{at};
ghost use Rattle.plate_row.specs.Row.{larger, front_to_back};

// Of two numbers the larger; of two that tie, as +0 and -0 do, the first.
#[tactic(auto, unfolding(crate::specs::Row::larger))]
fn the_larger(first: f32, second: f32) -> f32
    ensures { result ≡ larger first second }
{
    if first < second { second } else { first }
}

// The greatest number at azimuths 90 to 270.
fn strongest_behind(row: [f32; 360]) -> f32
    ensures { result ≡ fold larger (at row 90) (slice_range row 91 271) }
{
    row[91..=270]
        .iter()
        .fold(row[90], |most, x| the_larger(most, *x))
}

#[tactic(auto, using(crate::proofs::Greatest::by_fold), unfolding(crate::specs::Row::front_to_back))]
pub(crate) fn front_to_back(row: [f32; 360]) -> f32
    ensures { result ≡ front_to_back row }
{
    row[0] - strongest_behind(row)
}
