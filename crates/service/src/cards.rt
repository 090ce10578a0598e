// Cards that people type, for Rust and C callers; `card_calls` has what each call does.
ghost use Rattle.std.specs.Prelude.{◌≡◌};
ghost use Rattle.card_calls.specs.Calls.{read_call, tell_call, write_call};

// The station of a card: 0 with its 237 bytes, or 1 with its first mistake in six words.
#[unsafe(no_mangle)]
pub extern "C" fn hf_card(text: &[u8], station: &mut [u8], mistake: &mut [u32]) -> u32
    ensures { (result, (station.new, mistake.new)) ≡ read_call text.now station.old mistake.old }
{
    card_calls::read_card(text, station, mistake)
}

// The sentence of a card's first mistake, or of a remark on it.
#[unsafe(no_mangle)]
pub extern "C" fn hf_card_sentence(text: &[u8], out: &mut [u8]) -> u64
    ensures { (result, out.new) ≡ tell_call text.now out.old }
{
    card_calls::tell_card(text, out)
}

// The card of a station's 237 bytes.
#[unsafe(no_mangle)]
pub extern "C" fn hf_card_of(station: &[u8], out: &mut [u8]) -> u64
    ensures { (result, out.new) ≡ write_call station.now out.old }
{
    card_calls::write_card(station, out)
}
