// The plate of a station, by the steps of `plate`.
ghost use Rattle.std.specs.Prelude.{◌≡◌, ℕ, ◌<◌, get_or};
ghost use Rattle.answers.specs.Outcome.{outcome_as};
ghost use Rattle.answers.specs.declared.Kind.TheVariants as kind;
ghost use Rattle.floats.specs.Ops.{at};
ghost use Rattle.antenna.specs.Gain.{kind_of};
ghost use Rattle.shown.specs.Plate.{entries_of};
ghost use Rattle.shown.specs.StationPlate.{row_plate, station_plate};

use crate::gains::in_hundredths;
use answers::{Kind, Refusal};
use antenna::gain::kind_of;
use dial::Row;
use model::table::blank_table;
use plate_text::row::asked_row;
use request::{Request, prepare};

// The kinds of a row's numbers, beside the peak z6.
fn kinds_of(z6: f32, numbers: &[f32; 360]) -> [Kind; 360]
    ensures { (v : ℕ) → v < 360 → get_or result v kind.Level ≡ kind_of z6 (at numbers.now v) }
{
    numbers.map(|x| kind_of(z6, x))
}

// The plate of the row that is asked for.
fn show_row(q: Request, table: &[f32]) -> Result<Row, Refusal>
    ensures { outcome_as entries_of result ≡ row_plate q table.now }
{
    let numbers = asked_row(q, table)?;
    in_hundredths(&numbers, kinds_of(q.antenna.peak.z6, &numbers))
}

// The plate of a station's input.
pub(crate) fn show_station(input: &[u8]) -> Result<Row, Refusal>
    ensures { outcome_as entries_of result ≡ station_plate input.now }
{
    let mut table = blank_table();
    let request = prepare(input, &mut table)?;
    show_row(request, &table)
}
