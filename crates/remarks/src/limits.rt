// Directions of a plate that are at the limit of 30 dB below the peak.
ghost use Rattle.std.specs.Prelude.{◌≡◌};
ghost use Rattle.answers.specs.Outcome.{outcome_as};
ghost use Rattle.antenna.specs.Gain.{told};
ghost use Rattle.plate_text.specs.Plate.{gain_at};
ghost use Rattle.remarks.specs.Directions.{is_level, relative_at, limits_to};

use crate::floors::is_floor;
use answers::{Kind, Refusal};
use antenna::gain::{Gain, ccirgain};
use request::Request;

#[tactic(auto, unfolding(crate::specs::Directions::is_level))]
fn is_level(answer: Result<Gain, Refusal>) -> bool
    ensures { result ≡ is_level (outcome_as told answer) }
{
    answer.is_ok_and(|g| g.kind == Kind::Level)
}

// How many are: levels that with a maximum gain of 0 are floors.
#[tactic(auto, unfolding(crate::specs::Directions::limits_to))]
pub(crate) fn limits(q: Request, table: &[f32]) -> u32
    ensures { result ≡ limits_to (gain_at q table.now) (relative_at q table.now) 360 }
{
    let mut n = 0;
    for v in 0..360u16 {
        let answer = ccirgain(q.antenna, table, q.elevation, v as f32, q.giso);
        let relative = ccirgain(q.antenna, table, q.elevation, v as f32, 0.0);
        if is_level(answer) & is_floor(relative) {
            n += 1;
        }
    }
    n
}
