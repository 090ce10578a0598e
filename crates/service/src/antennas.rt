// The planning service's rhythm: set up once into a lent antenna record and table, then gains and
// rows over both. Any words are read as a record; `antenna_calls` has what each call does.
ghost use Rattle.std.specs.Prelude.{◌≡◌, length};
ghost use Rattle.antenna.specs.SetUp.{set_up_of, beside_of};
ghost use Rattle.antenna_words.specs.Reading.{antenna_in};
ghost use Rattle.antenna_calls.specs.Antennas.{set_up_left, set_up_call, gain_call, row_call, row_call_after};

// `antinit2` of twenty parameters: 0, with the table, the antenna record's words and what the search
// found; or the refusal. 8 first for parameters, a record or words of another number. What is left
// as the record is read back as set-up's own.
#[unsafe(no_mangle)]
pub extern "C" fn hf_setup(
    parm: &[f32],
    table: &mut [f32],
    antenna: &mut [u32],
    out: &mut [u32],
) -> u32
    ensures out_after { set_up_left result table.new antenna.new out.new ≡ set_up_call parm.now table.old antenna.old out.old }
    ensures antenna_after { result ≡ 0 → antenna_in antenna.new ≡ beside_of (set_up_of parm.now (length table.old)) }
{
    antenna_calls::setup(parm, table, antenna, out)
}

// `ccirgain` of the record in the words. 8 first for words of another number.
#[unsafe(no_mangle)]
pub extern "C" fn hf_gain(
    antenna: &[u32],
    table: &[f32],
    elevation: f32,
    azimuth: f32,
    giso: f32,
) -> u64
    ensures { result ≡ gain_call antenna.now table.now elevation azimuth giso }
{
    antenna_calls::gain(antenna, table, elevation, azimuth, giso)
}

// `row` of the record in the words: the numbers at azimuths 0 to 359 in the lent row. 8 first for
// words of another number.
#[unsafe(no_mangle)]
pub extern "C" fn hf_plate_row(
    antenna: &[u32],
    table: &[f32],
    elevation: f32,
    giso: f32,
    row: &mut [f32],
) -> u64
    ensures value { result ≡ row_call antenna.now table.now elevation giso (length row.old) }
    ensures row_after { row.new ≡ row_call_after antenna.now table.now elevation giso row.old }
{
    antenna_calls::plate_row(antenna, table, elevation, giso, row)
}
