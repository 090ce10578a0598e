// The band book, its answers as one number; `book_calls` has what each call does.
ghost use Rattle.std.specs.Prelude.{◌≡◌};
ghost use Rattle.book_calls.specs.Book.{book_call, station_call};

// `bandbook::book` of rows, three words each: 0 for a good book.
#[unsafe(no_mangle)]
pub extern "C" fn hf_book(rows: &[u32]) -> u64
    ensures { result ≡ book_call rows.now }
{
    book_calls::book(rows)
}

// `bandbook::station_for`: the id of the station for a kHz.
#[unsafe(no_mangle)]
pub extern "C" fn hf_station_for(rows: &[u32], khz: u32) -> u64
    ensures { result ≡ station_call rows.now khz }
{
    book_calls::station_for(rows, khz)
}
