// What a picture draws of a station: its row in raised hundredths with its kinds, and its heading.
ghost use Rattle.std.specs.Prelude.{◌≡◌};
ghost use Rattle.answers.specs.Outcome.{outcome_as};
ghost use Rattle.svg_text.specs.Drawn.{drawn_of, drawn_mast};

use answers::Refusal;
use dial::Row;
use heading::{Heading, tell};
use shown::show;

#[derive(Clone, Copy)]
pub(crate) struct Mast {
    pub row: Row,
    pub heading: Heading,
}

// What is drawn of the station in these bytes.
pub(crate) fn read_mast(input: &[u8]) -> Result<Mast, Refusal>
    ensures { outcome_as drawn_mast result ≡ drawn_of input.now }
{
    let row = show(input)?;
    let heading = tell(input)?;
    Ok(Mast { row, heading })
}
