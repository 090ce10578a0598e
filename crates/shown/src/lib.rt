#![tactic(auto)]

// A plate to be shown: from the 237 bytes that `plate` reads to 360 gains in hundredths with their
// kinds, or the first refusal, for any bytes. The answer is `shown_of` (specs/Shown.antt): of a station
// the gains that `plate` prints, of a curtain, which `plate` refuses, its levels with one factor.
mod curtains;
mod gains;
mod stations;

ghost use Rattle.std.specs.Prelude.{◌≡◌, length};
ghost use Rattle.answers.specs.Outcome.{outcome_as};
ghost use Rattle.shown.specs.Plate.{entries_of};
ghost use Rattle.shown.specs.Shown.{read_plate, shown_of};

use answers::Refusal;
use curtains::show_curtain;
use dial::Row;
use request::station_of;
use station::Station;
use stations::show_station;
use words::big_endian::float_at;

// The plate of the record that was read.
#[tactic(auto, unfolding(crate::specs::Shown::read_plate))]
fn show_read(input: &[u8], s: Station) -> Result<Row, Refusal>
    requires { length input.now ≡ 237 }
    ensures { outcome_as entries_of result ≡ read_plate input.now s }
{
    if s.mode != 3 {
        return show_station(input);
    }
    let mhz = float_at(input, 225);
    let design = float_at(input, 229);
    let elevation = float_at(input, 233);
    show_curtain(s, mhz, design, elevation)
}

// The plate that these bytes ask for.
#[tactic(auto, unfolding(crate::specs::Shown::shown_of, request::specs::Request::and_then))]
pub fn show(input: &[u8]) -> Result<Row, Refusal>
    ensures { outcome_as entries_of result ≡ shown_of input.now }
{
    let station = station_of(input)?;
    show_read(input, station)
}
