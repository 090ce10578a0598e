// The lines of a plate.
ghost use Rattle.std.specs.Prelude.{◌+◌, ◌≤◌, length};
ghost use Rattle.words.specs.Writing.{Put};
ghost use Rattle.hundredths.specs.Raised.{lowered};
ghost use Rattle.shown.specs.Plate.{entries_of};
ghost use Rattle.dbi_text.specs.Dbi.{entry_line, lines_from};

use answers::Kind;
use dial::Row;
use hundredths::decimals::push_raised;
use numerals::push_numeral;
use text::lines::kind_name;
use words::page::Page;

// Azimuth, gain and the name of its kind.
#[tactic(auto, unfolding(crate::specs::Dbi::entry_line, quoted::specs::Quoted::quoted))]
fn push_entry<const N: usize>(page: &mut Page<N>, azimuth: u32, raised: u32, kind: Kind)
    requires { length page.old + 34 ≤ N }
    ensures { Put 34 page.old (entry_line azimuth (kind, lowered raised)) page.new }
{
    push_numeral(page, azimuth);
    page.push(b' ');
    push_raised(page, raised);
    page.push(b' ');
    page.push_bytes(kind_name(kind));
    page.push(b'\n');
}

// The lines of azimuths 0 to 359.
pub(crate) fn push_entries<const N: usize>(page: &mut Page<N>, row: &Row)
    requires { length page.old + 12240 ≤ N }
    ensures { Put 12240 page.old (lines_from 0 (entries_of row.now)) page.new }
{
    for v in 0..360 {
        push_entry(page, v as u32, row.numbers[v], row.kinds[v]);
    }
}
