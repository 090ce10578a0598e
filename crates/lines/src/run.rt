// Runs of bytes: the one loop that looks for a line's end, a remark, a blank, a word.
ghost use Rattle.std.specs.Prelude.{◌≡◌};
ghost use Rattle.lines.specs.Pieces.{end_from};
ghost use Rattle.lines.specs.Words.{is_blank};
ghost use Rattle.lines.specs.Inner.{stops_at};

// What a run ends at. `Filled` is a byte that isn't blank.
#[derive(Clone, Copy)]
pub(crate) enum Stop {
    LineFeed,
    Remark,
    Blank,
    Filled,
}

fn is_blank(b: u8) -> bool
    ensures { result ≡ is_blank b }
{
    (b == b' ') | (b == b'\t') | (b == b'\r')
}

fn stops(stop: Stop, b: u8) -> bool
    ensures { result ≡ stops_at stop b }
{
    match stop {
        Stop::LineFeed => b == b'\n',
        Stop::Remark => b == b'#',
        Stop::Blank => is_blank(b),
        Stop::Filled => !is_blank(b),
    }
}

// The first index from `at` on where a run ends; the end, where it doesn't.
pub(crate) fn run_end(s: &[u8], at: usize, stop: Stop) -> usize
    ensures { result ≡ end_from (stops_at stop) s.now at }
{
    for i in at..s.len() {
        if stops(stop, s[i]) {
            return i;
        }
    }
    s.len()
}
