// A plate's gains in hundredths.
ghost use Rattle.std.specs.Prelude.{◌≡◌, ℕ};
ghost use Rattle.answers.specs.Outcome.{outcome_as};
ghost use Rattle.shown.specs.InOrder.{in_order};
ghost use Rattle.shown.specs.Plate.{in_hundredths, gain_in, entries_of};

use answers::{Kind, Refusal};
use dial::Row;
use hundredths::rounding::{in_span, raised};

// The plate of these numbers and kinds, or the refusal of the first number out of span.
pub(crate) fn in_hundredths(numbers: &[f32; 360], kinds: [Kind; 360]) -> Result<Row, Refusal>
    ensures { outcome_as entries_of result ≡ in_order (λ (v : ℕ). in_hundredths (gain_in kinds numbers.now v)) 360 }
{
    let mut out = [0u32; 360];
    for v in 0..360 {
        let x = numbers[v];
        if !in_span(x) {
            return Err(Refusal::Span);
        }
        out[v] = raised(x);
    }
    Ok(Row {
        numbers: out,
        kinds,
    })
}
