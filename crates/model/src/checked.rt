// What the relative gain reads, once it is known to be good.
ghost use Rattle.std.specs.Prelude.{◌≡◌, ◌≤◌, true, false, length};
ghost use Rattle.std.specs.Option.{ForSome, ForNone};
ghost use Rattle.model.specs.Counts.{counts_ok};
ghost use Rattle.model.specs.Table.{table_size};
ghost use Rattle.model.specs.Types.{type_ok, type_number};

use crate::record::Model;
use crate::types::AntennaType;

// A record with its type, or with none where its number is no type's; its loops may run, and the
// table is long enough.
#[derive(Clone, Copy)]
pub struct Checked<'a> {
    pub kind: Option<AntennaType>,
    pub model: &'a Model,
    pub table: &'a [f32],
    pub ghost typed: { ForSome kind (λ k. type_number k ≡ model.now.iant) },
    pub ghost untyped: { ForNone kind (type_ok model.now.iant ≡ false) },
    pub ghost counted: { counts_ok model.now ≡ true },
    pub ghost whole: { table_size ≤ length table.now },
}

impl<'a> Checked<'a> {
    // Of a record of any type, or of none.
    pub fn of(model: &'a Model, table: &'a [f32]) -> Checked<'a>
        requires { (counts_ok model.now ≡ true) × (table_size ≤ length table.now) }
        ensures { (result.model.now ≡ model.now) × (result.table.now ≡ table.now) }
    {
        Checked {
            kind: AntennaType::try_from(model.iant).ok(),
            model,
            table,
        }
    }
}
