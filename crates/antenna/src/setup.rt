// Set-up, `antinit2`: the antenna record of twenty parameters, and its table in the lent floats.
ghost use Rattle.std.specs.Prelude.{◌≡◌, true, length, IfOk};
ghost use Rattle.model.specs.Counts.{counts_ok};
ghost use Rattle.model.specs.Types.{type_number};
ghost use Rattle.logperiodic.specs.Active.{Listed};
ghost use Rattle.answers.specs.Outcome.{outcome_as};
ghost use Rattle.parameters.specs.Limits.{slots_ok};
ghost use Rattle.antenna.specs.SetUp.{design_of, no_elements, elements_of, slewed_of, model_of, search_refused, set_up_of, set_up, beside_of, lent_after};

use crate::copy::lay_over;
use crate::record::Antenna;
use crate::sum::sum_of;
use answers::Refusal;
use ground::parmprec::{ground_of, table_of};
use logperiodic::geometry::{Boom, Design};
use logperiodic::logparm::{LogPeriodic, logparm};
use model::checked::Checked;
use model::record::{Elements, Model};
use model::types::AntennaType;
use parameters::constants::{constants_of, wave_constants, wavelength};
use parameters::limits::{check, start_of};
use parameters::whole::not_zero;
use search::gainorm::{Search, search_peak};
use trig::trigfun;

// The antenna record, and how often the search read the gain.
#[derive(Clone, Copy)]
pub struct SetUp {
    pub antenna: Antenna,
    pub readings: u64,
}

#[tactic(auto, unfolding(crate::specs::SetUp::design_of))]
fn design_of(p: [f32; 20]) -> Design
    ensures { result ≡ design_of p }
{
    Design {
        rlnel: p[7] / 2.0,
        rl1: p[6] / 2.0,
        hnel: p[10],
        h1: p[9],
        dc: p[8],
        z0: p[11],
    }
}

#[tactic(auto, unfolding(crate::specs::SetUp::no_elements))]
fn no_elements() -> LogPeriodic
    ensures { result ≡ no_elements }
{
    let elements = Elements {
        fi: [0.0; 36],
        rim: [0.0; 36],
        x: [0.0; 36],
        y: [0.0; 36],
        iek: [0; 36],
        rl: [0.0; 36],
        h: [0.0; 31],
        nat: 0,
    };
    let boom = Boom {
        sinth: 0.0,
        costh: 0.0,
    };
    LogPeriodic { elements, boom }
}

// The elements of types 5 and 6, with their boom.
#[tactic(auto, using(crate::proofs::setup::Accepted::nel_bounds, crate::proofs::setup::Accepted::none_listed), unfolding(crate::specs::SetUp::elements_of, parameters::specs::TypeConstants::number, parameters::specs::TypeConstants::given, parameters::specs::TypeConstants::constants_with, parameters::specs::TypeConstants::wave_constants))]
fn elements_of(kind: AntennaType, p: [f32; 20]) -> LogPeriodic
    requires { slots_ok (type_number kind) p ≡ true }
    ensures value { result ≡ elements_of (type_number kind) p }
    ensures listed { Listed result.elements.iek result.elements.nat }
{
    if kind.is_log_periodic() {
        let nel = numeric::float::to_usize(p[5]);
        let rlambda = wavelength(p);
        let beta = wave_constants(p).beta;
        return logparm(u32::from(kind), nel, design_of(p), rlambda, beta);
    }
    no_elements()
}

// Whether the truncated slew is not 0.
#[tactic(auto, unfolding(crate::specs::SetUp::slewed_of))]
fn slewed(kind: AntennaType, p: [f32; 20]) -> bool
    ensures { result ≡ slewed_of (type_number kind) p }
{
    kind.is_array() & not_zero(p[9])
}

#[tactic(auto, using(crate::proofs::setup::Accepted::constant_counts, crate::proofs::setup::Accepted::counts_made), unfolding(crate::specs::SetUp::model_of))]
fn model_of(kind: AntennaType, p: [f32; 20]) -> Model
    requires { slots_ok (type_number kind) p ≡ true }
    ensures value { result ≡ model_of (type_number kind) p }
    ensures result_value { counts_ok result ≡ true }
    ensures typed { type_number kind ≡ result.iant }
{
    let l = elements_of(kind, p);
    let elements = l.elements;
    let boom = l.boom;
    let constants = constants_of(kind, p, boom);
    let trig = trigfun();
    let ground = ground_of(u32::from(kind), constants, trig);
    Model {
        iant: u32::from(kind),
        slewed: slewed(kind, p),
        constants,
        elements,
        trig,
        ground,
    }
}

#[tactic(auto, unfolding(crate::specs::SetUp::search_refused))]
fn search_refused(s: Search) -> bool
    ensures { result ≡ search_refused s }
{
    let peak = s.peak;
    !(s.tally.sound
        & numeric::float::is_finite(peak.z6)
        & numeric::float::is_finite(peak.umax)
        & numeric::float::is_finite(peak.vmax))
}

// `antinit2`. The search reads a table of its own, so that its refusal leaves the lent floats alone.
#[tactic(auto, using(answers::proofs::Outcome::refused_by, answers::proofs::Outcome::granted_by, crate::proofs::setup::Accepted::accepted_limits), unfolding(crate::specs::SetUp::set_up_of, crate::specs::SetUp::searched, crate::specs::SetUp::found, crate::specs::SetUp::accepted_of, crate::specs::SetUp::beside_of, crate::specs::SetUp::lent_after, crate::specs::SetUp::kept_after))]
pub fn antinit2(parm: [f32; 20], lent: &mut [f32]) -> Result<SetUp, Refusal>
    ensures result_value { outcome_as set_up result ≡ set_up_of parm (length lent.old) }
    ensures lent_after { lent.new ≡ lent_after parm lent.old }
    ensures antenna_value { IfOk result (λ s. s.antenna ≡ beside_of (set_up_of parm (length lent.old))) }
{
    let kind = check(parm, lent.len())?;
    let model = model_of(kind, parm);
    let table = table_of(model);
    let checked = Checked {
        kind: Some(kind),
        model: &model,
        table: &table,
    };
    let found = search_peak(checked, start_of(kind, parm));
    if search_refused(found) {
        return Err(Refusal::Pattern);
    }
    lay_over(&table, lent);
    let antenna = Antenna {
        model,
        peak: found.peak,
        sum: sum_of(&table),
    };
    Ok(SetUp {
        antenna,
        readings: found.tally.readings,
    })
}
