#![tactic(auto)]

// From a program's input to an antenna that is ready for gain, or the first refusal on the way: the
// reader, `setmaxgain` and set-up in turn. Any bytes may be given, and any table lent. The answer is
// `request_of` and the lent table afterwards `table_after` (specs/Request.antt); a refusal leaves the
// table as it was.
ghost use Rattle.std.specs.Prelude.{◌≡◌, length, OnOk};
ghost use Rattle.answers.specs.Outcome.{outcome};
ghost use Rattle.request.specs.Request.{station_in, request_of, table_after};

use answers::Refusal;
use antenna::record::Antenna;
use antenna::setup::antinit2;
use maxgain::setmaxgain;
use station::Station;
use words::big_endian::float_at;

// The antenna, the parameters as set-up got them, the maximum gain in dBi, and the elevation that
// the input asks for, which no step here looks at.
#[derive(Clone, Copy)]
pub struct Request {
    pub antenna: Antenna,
    pub parm: [f32; 20],
    pub giso: f32,
    pub elevation: f32,
}

// The station in the first 225 bytes of an input of 237.
#[tactic(auto, unfolding(crate::specs::Request::station_in))]
pub fn station_of(input: &[u8]) -> Result<Station, Refusal>
    ensures value { outcome result ≡ station_in input.now }
    ensures long { OnOk result (length input.now ≡ 237) }
{
    if input.len() != 237 {
        return Err(Refusal::Record);
    }
    station::read(&input[..225])
}

// The request that these bytes make; its table is laid over the lent floats.
#[tactic(auto, using(crate::proofs::Then::then_refused, crate::proofs::Then::then_accepted), unfolding(crate::specs::Request::and_then, crate::specs::Request::antenna_of, crate::specs::Request::tuned_of, crate::specs::Request::request_of, crate::specs::Request::left_after, crate::specs::Request::table_after, antenna::specs::SetUp::lent_after, antenna::specs::SetUp::kept_after))]
pub fn prepare(input: &[u8], table: &mut [f32]) -> Result<Request, Refusal>
    ensures result_value { outcome result ≡ request_of input.now (length table.old) }
    ensures table_after { table.new ≡ table_after input.now table.old }
{
    let s = station_of(input)?;
    let mhz = float_at(input, 225);
    let design = float_at(input, 229);
    let found = setmaxgain(s, mhz, design)?;
    let parm = found.parm;
    let prepared = antinit2(parm, table)?;
    Ok(Request {
        antenna: prepared.antenna,
        parm,
        giso: found.gain,
        elevation: float_at(input, 233),
    })
}
