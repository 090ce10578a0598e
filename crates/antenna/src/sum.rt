// The sum by which a table is known to be the one that set-up left.
ghost use Rattle.std.specs.Prelude.{◌≡◌, ◌==◌};
ghost use Rattle.antenna.specs.TableSum.{table_sum};

use model::table::SIZE;
use numeric::bits::bits_of;

// A table's sum, modulo 2^32; the compiler adds eight floats' bits in a turn. A table that is too short
// is refused for that first, whatever its sum is.
#[tactic(auto, unfolding(crate::specs::TableSum::total))]
pub(crate) fn sum_of(table: &[f32]) -> u32
    ensures { result ≡ table_sum table.now }
{
    let mut sum: u32 = 0;
    for x in &table[..SIZE.min(table.len())] {
        sum = sum.wrapping_add(bits_of(*x));
    }
    sum
}

// Whether a table has the sum of an antenna record. Inner step: of gain and row.
pub fn has_sum(table: &[f32], sum: u32) -> bool
    ensures { result ≡ (table_sum table.now == sum) }
{
    sum_of(table) == sum
}
