// The station record, bytes on one side and 57 words on the other: the mode, then the floats' bits;
// `record_calls` has what each call does.
ghost use Rattle.std.specs.Prelude.{◌≡◌};
ghost use Rattle.packed.specs.Lists.{left};
ghost use Rattle.record_calls.specs.Record.{read_call, write_call};

// Reads a record into 57 words: 0; or the refusal, and 8 first for words of another number.
#[unsafe(no_mangle)]
pub extern "C" fn hf_read(bytes: &[u8], words: &mut [u32]) -> u32
    ensures { left result words.new ≡ read_call bytes.now words.old }
{
    record_calls::read(bytes, words)
}

// Writes the record of 57 words in an edition: 0; or the refusal, and 8 first for words of another
// number.
#[unsafe(no_mangle)]
pub extern "C" fn hf_write(edition: u32, words: &[u32], bytes: &mut [u8]) -> u32
    ensures { left result bytes.new ≡ write_call edition words.now bytes.old }
{
    record_calls::write(edition, words, bytes)
}
