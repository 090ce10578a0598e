// The flat table that set-up fills: four parts, `ww1` to `ww4`, each by elevation 0 to 90, then
// element 0 to 30.
ghost use Rattle.std.specs.Prelude.{◌≡◌};
ghost use Rattle.model.specs.Table.{blank_table};

// The floats of one elevation, of one part and of the table.
pub const ROW: usize = 31;

pub const PART: usize = 91 * ROW;

pub const SIZE: usize = 4 * PART;

// A table of zeros.
#[tactic(auto, unfolding(crate::specs::Table::blank_table))]
pub fn blank_table() -> [f32; SIZE]
    ensures { result ≡ blank_table }
{
    [0.0; SIZE]
}
