// The row of a request.
ghost use Rattle.std.specs.Prelude.{◌≡◌};
ghost use Rattle.answers.specs.Outcome.{outcome};
ghost use Rattle.plate_text.specs.Plate.{row_numbers};

use answers::Refusal;
use plate_row::row::row;
use request::Request;

// The numbers of the row that is asked for. Inner step: of programs that show a plate.
#[tactic(auto, unfolding(crate::specs::Plate::row_numbers, request::specs::Request::and_then, plate_row::specs::Row::row_after, plate_row::specs::Row::written_after))]
pub fn asked_row(q: Request, table: &[f32]) -> Result<[f32; 360], Refusal>
    ensures { outcome result ≡ row_numbers q table.now }
{
    let mut numbers = [0.0f32; 360];
    row(q.antenna, table, q.elevation, q.giso, &mut numbers)?;
    Ok(numbers)
}
