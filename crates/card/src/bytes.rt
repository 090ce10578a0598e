// A station's 237 bytes.
ghost use Rattle.std.specs.Prelude.{◌≡◌, length};
ghost use Rattle.card.specs.Reading.{bytes_of};
ghost use Rattle.card.specs.Inner.{Writable};

use crate::Reading;
use numeric::bits::bits_of;
use words::big_endian::put_word;

// The record of edition 0, then operating MHz, design MHz and elevation.
pub(crate) fn put_bytes(reading: Reading, out: &mut [u8])
    requires { (length out.old ≡ 237) × Writable reading }
    ensures { out.new ≡ bytes_of reading }
{
    // never refused: the station can be written
    station::write(0, reading.station, &mut out[..225]).unwrap();
    put_word(out, 225, bits_of(reading.mhz));
    put_word(out, 229, bits_of(reading.design));
    put_word(out, 233, bits_of(reading.elevation));
}
