// What set-up's search found, as words.
ghost use Rattle.std.specs.Prelude.{◌≡◌, ◌≤◌, length};
ghost use Rattle.words.specs.Laid.{laid};
ghost use Rattle.gains_calls.specs.Search.{search_words};

use numeric::bits::bits_of;
use search::record::Peak;

// Inner step: writes the reading count's low half and the peak's bits over the first four words.
#[tactic(auto, unfolding(crate::specs::Search::search_words, words::specs::Laid::laid))]
pub fn put_search(out: &mut [u32], readings: u64, peak: Peak)
    requires { 4 ≤ length out.old }
    ensures { out.new ≡ laid out.old 0 (search_words readings peak) }
{
    out[0] = (readings % 0x1_0000_0000) as u32;
    out[1] = bits_of(peak.z6);
    out[2] = bits_of(peak.umax);
    out[3] = bits_of(peak.vmax);
}
