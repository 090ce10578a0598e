// Whether a plate is all floors.
ghost use Rattle.std.specs.Prelude.{◌≡◌};
ghost use Rattle.answers.specs.Outcome.{outcome_as};
ghost use Rattle.antenna.specs.Gain.{told};
ghost use Rattle.plate_text.specs.Plate.{gain_at};
ghost use Rattle.remarks.specs.Directions.{is_floor, floors_to};

use answers::{Kind, Refusal};
use antenna::gain::{Gain, ccirgain};
use request::Request;

#[tactic(auto, unfolding(crate::specs::Directions::is_floor))]
pub(crate) fn is_floor(answer: Result<Gain, Refusal>) -> bool
    ensures { result ≡ is_floor (outcome_as told answer) }
{
    answer.is_ok_and(|g| g.kind == Kind::Floor)
}

// Whether all 360 directions are.
#[tactic(auto, unfolding(crate::specs::Directions::floors_to))]
pub(crate) fn all_floors(q: Request, table: &[f32]) -> bool
    ensures { result ≡ floors_to (gain_at q table.now) 360 }
{
    let mut all = true;
    for v in 0..360u16 {
        let answer = ccirgain(q.antenna, table, q.elevation, v as f32, q.giso);
        all = all & is_floor(answer);
    }
    all
}
