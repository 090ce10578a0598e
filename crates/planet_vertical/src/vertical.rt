// The vertical part's numbers: `ccirgain` up from the front's horizon over the top to the back's.
ghost use Rattle.std.specs.Prelude.{◌≡◌, true, ◌≤◌};
ghost use Rattle.answers.specs.Outcome.{outcome};
ghost use Rattle.antenna.specs.TableSum.{own_table};
ghost use Rattle.planet_vertical.specs.Directions.{elevation_at, azimuth_at, vertical_gain, numbers_to};

use answers::Refusal;
use antenna::gain::gain_told;
use request::Request;

#[tactic(auto, unfolding(crate::specs::Directions::elevation_at))]
fn elevation_at(angle: u16) -> u16
    requires { angle ≤ 180 }
    ensures { (result ≡ elevation_at angle) × (result ≤ 90) }
{
    if 90 < angle { 180 - angle } else { angle }
}

#[tactic(auto, unfolding(crate::specs::Directions::azimuth_at))]
fn azimuth_at(angle: u16) -> u16
    ensures { (result ≡ azimuth_at angle) × (result ≤ 180) }
{
    if 90 < angle { 180 } else { 0 }
}

// The numbers at angles 0 to 180, or the first refusal.
// Inner step: the table is the antenna's own.
pub fn read_vertical(q: Request, table: &[f32]) -> Result<[f32; 181], Refusal>
    requires { own_table q.antenna table.now ≡ true }
    ensures { outcome result ≡ numbers_to (vertical_gain q table.now) 181 }
{
    let mut numbers = [0.0f32; 181];
    for angle in 0..181 {
        let u = elevation_at(angle) as f32;
        let v = azimuth_at(angle) as f32;
        let gain = gain_told(q.antenna, table, true, u, v, q.giso)?;
        numbers[angle as usize] = gain.number;
    }
    Ok(numbers)
}
