// The constants of each type, as the source's `antinit2` sets them from the twenty parameters.

#![tactic(auto, unfolding(crate::specs::TypeConstants::number, crate::specs::TypeConstants::given, crate::specs::TypeConstants::constants_with, crate::specs::TypeConstants::wave_constants, crate::specs::TypeConstants::screen_of, crate::specs::TypeConstants::array_own, crate::specs::TypeConstants::boom_own, crate::specs::TypeConstants::rhombic_own, crate::specs::TypeConstants::crossed_own, crate::specs::TypeConstants::own_of, crate::specs::TypeConstants::constants_of, model::specs::Types::array_type, model::specs::Types::log_periodic))]

ghost use Rattle.std.specs.Prelude.{◌≡◌};
ghost use Rattle.model.specs.Types.{type_number};
ghost use Rattle.parameters.specs.TypeConstants.{rlambda_of, constants_with, wave_constants, screen_of, array_own, boom_own, rhombic_own, crossed_own, constants_of};

use crate::whole::truncated;
use logperiodic::geometry::Boom;
use model::record::Constants;
use model::types::AntennaType;

const P1: f32 = 3.1415927;

// Degrees to radians.
const Q1: f32 = P1 / 180.0;

// The wavelength in metres. Inner step: of the elements too.
pub fn wavelength(p: [f32; 20]) -> f32
    ensures { result ≡ rlambda_of p }
{
    299.8 / p[4]
}

// Wave and ground, which all types have. Inner step: of the elements too.
pub fn wave_constants(p: [f32; 20]) -> Constants
    ensures { result ≡ wave_constants p }
{
    let rlambda = wavelength(p);
    Constants {
        d1: 18000.0 * p[3] / p[4],
        e1: p[2],
        beta: 2.0 * P1 / rlambda,
        cpfr: 0.0,
        cp11: 0.0,
        fr1: 0.0,
        h1: 0.0,
        pfr: 0.0,
        p11: 0.0,
        p11s: 0.0,
        q2: 0.0,
        r2: 0.0,
        r3: 0.0,
        sl: 0.0,
        costh: 0.0,
        sinth: 0.0,
    }
}

// What types 1 to 4 share.
fn dipole_constants(p: [f32; 20]) -> Constants
    ensures { result ≡ constants_with p (array_own 4 p) }
{
    let k = wave_constants(p);
    let ifs = truncated(p[9]);
    let fr = p[4] / p[7];
    let pfr = P1 * fr;
    let p11 = pfr / 2.0;
    Constants {
        r2: p[5],
        r3: p[6],
        h1: p[8],
        pfr,
        p11,
        cpfr: sine::cos(pfr),
        cp11: sine::cos(p11),
        sl: sine::sin(ifs * Q1),
        ..k
    }
}

// Type 1's screen of wires.
fn screen(p: [f32; 20]) -> f32
    ensures { result ≡ screen_of p }
{
    let ws = p[11];
    let wd = p[12];
    let fr = p[4] / p[7];
    let fdx = ws / (wd * P1 * 0.001);
    let fdx1 = logarithm::ln(fdx);
    let fdx2 = 0.048 * ws;
    fdx1 * fdx2 * fr
}

fn array_constants(kind: AntennaType, p: [f32; 20]) -> Constants
    ensures { result ≡ constants_with p (array_own (type_number kind) p) }
{
    let k = dipole_constants(p);
    match kind {
        AntennaType::Multiband => Constants {
            p11s: 8.0 * k.p11 * p[10],
            fr1: screen(p),
            ..k
        },
        AntennaType::CentreFed | AntennaType::EndFed => Constants { q2: p[10], ..k },
        _ => k,
    }
}

fn boom_constants(p: [f32; 20], b: Boom) -> Constants
    ensures { result ≡ constants_with p (boom_own b) }
{
    let k = wave_constants(p);
    Constants {
        costh: b.costh,
        sinth: b.sinth,
        ..k
    }
}

fn rhombic_constants(p: [f32; 20]) -> Constants
    ensures { result ≡ constants_with p (rhombic_own p) }
{
    let k = wave_constants(p);
    let gamma = p[7] * Q1;
    Constants {
        sl: p[5] * k.beta,
        h1: p[6] * k.beta * 2.0,
        sinth: sine::sin(gamma),
        costh: sine::cos(gamma),
        ..k
    }
}

fn crossed_constants(p: [f32; 20]) -> Constants
    ensures { result ≡ constants_with p (crossed_own p) }
{
    let k = wave_constants(p);
    let fr = p[4] / p[5];
    let pfr = P1 * fr;
    let p11 = pfr / 2.0;
    Constants {
        h1: p[6],
        pfr,
        p11,
        cp11: sine::cos(p11),
        ..k
    }
}

// The boom is `logparm`'s, for types 5 and 6. Inner step: of set-up.
pub fn constants_of(kind: AntennaType, p: [f32; 20], b: Boom) -> Constants
    ensures { result ≡ constants_of (type_number kind) p b }
{
    match kind {
        AntennaType::Multiband
        | AntennaType::CentreFed
        | AntennaType::EndFed
        | AntennaType::Tropical => array_constants(kind, p),
        AntennaType::HorizontalLogPeriodic | AntennaType::VerticalLogPeriodic => boom_constants(
            p, b,
        ),
        AntennaType::Rhombic => rhombic_constants(p),
        AntennaType::Quadrant | AntennaType::CrossedDipoles => crossed_constants(p),
    }
}
