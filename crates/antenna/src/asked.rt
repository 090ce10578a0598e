// Why gain and row refuse before any number is computed. What both read, the antenna record and its
// table, is tried here, once, in the order of the numbers: 15, which is tried before 10, is the last.
ghost use Rattle.std.specs.Prelude.{◌≡◌, length, IfOk};
ghost use Rattle.answers.specs.Outcome.{number_of};
ghost use Rattle.antenna.specs.Asked.{asked_refusal};

use answers::Refusal;
use model::checked::Checked;
use model::counts::counts_ok;
use model::record::Model;
use model::table::SIZE;
use model::types::AntennaType;

// What a call says of its own arguments: its floats are finite, its elevation is one that it takes,
// the space lent for its answer is right, and the table is the record's own.
#[derive(Clone, Copy)]
pub struct Asked {
    pub values: bool,
    pub aim: bool,
    pub space: bool,
    pub own: bool,
}

// What is asked of a record and its table, or the first refusal. Inner step: of gain and row.
#[tactic(auto, unfolding(crate::specs::Asked::asked_refusal))]
pub fn check<'a>(model: &'a Model, table: &'a [f32], asked: Asked) -> Result<Checked<'a>, Refusal>
    ensures refusal { number_of result ≡ asked_refusal model.now (length table.now) asked }
    ensures checked { IfOk result (λ c. (c.model.now ≡ model.now) × (c.table.now ≡ table.now)) }
{
    if !asked.values {
        return Err(Refusal::Value);
    }
    let kind = AntennaType::try_from(model.iant)?;
    if !counts_ok(*model) {
        return Err(Refusal::Count);
    }
    if !asked.aim {
        return Err(Refusal::Aim);
    }
    if (table.len() < SIZE) | !asked.space {
        return Err(Refusal::Space);
    }
    if !asked.own {
        return Err(Refusal::Table);
    }
    Ok(Checked {
        kind: Some(kind),
        model,
        table,
    })
}
