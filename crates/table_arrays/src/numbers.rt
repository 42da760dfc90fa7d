//! The numerators of the entries and the denominators of the rows, in two words each.

ghost use Rattle.std.specs.Prelude.{◌≡◌, ◌<◌, ◌≤◌, length, map, take, drop};
ghost use Rattle.flat_arrays.specs.Words.{natural_of};
ghost use Rattle.stencil_apply.specs.Table.{entries_of, row_at};
ghost use Rattle.table_arrays.specs.Flat.{denominators_of, numerators_of};

use flat_arrays::Wide;
use number_width::{Natural, NumberSlice};
use stencil_apply::StencilTable;

// Fills the array with numbers in two words each.
fn fill_words<T: Natural>(numbers: &[T], out: &mut [Wide])
    requires equal { length out.old ≡ length numbers.now }
    ensures words { map natural_of out.new ≡ map T.value numbers.now }
    ensures len { length out.new ≡ length out.old }
{
    for k in 0..numbers.len() {
        out[k] = Wide::of_natural(numbers[k].wide());
    }
}

// Fills the array with the numerators of a row.
fn fill_numerators(table: &StencilTable, row: u32, out: &mut [Wide])
    requires inside { row < length table.now.rows }
    requires equal { length out.old ≡ length (row_at table.now row).shares }
    ensures words { map natural_of out.new ≡ map (λ share. share.1) (row_at table.now row).shares }
    ensures len { length out.new ≡ length (row_at table.now row).shares }
{
    match table.row_numerators(row) {
        NumberSlice::Narrow(numbers) => fill_words(numbers, out),
        NumberSlice::Wide(numbers) => fill_words(numbers, out),
    }
}

/// Writes the numerators of all entries, row by row, in two words each.
///
/// The array has at least one place for each entry. The call leaves later places unchanged.
pub fn put_numerators(table: &StencilTable, out: &mut [Wide])
    requires fits { entries_of table.now.rows ≤ length out.old }
    ensures written { map natural_of (take (entries_of table.now.rows) out.new) ≡ numerators_of table.now.rows }
    ensures rest { drop (entries_of table.now.rows) out.new ≡ drop (entries_of table.now.rows) out.old }
    ensures len { length out.new ≡ length out.old }
{
    let mut at = 0;
    for row in 0..table.rows() {
        let len = table.row_len(row) as usize;
        fill_numerators(table, row, &mut out[at..at + len]);
        at += len;
    }
}

/// Writes the denominators of all rows, in two words each.
///
/// The array has at least one place for each row. The call leaves later places unchanged.
pub fn put_denominators(table: &StencilTable, out: &mut [Wide])
    requires fits { length table.now.rows ≤ length out.old }
    ensures written { map natural_of (take (length table.now.rows) out.new) ≡ denominators_of table.now.rows }
    ensures rest { drop (length table.now.rows) out.new ≡ drop (length table.now.rows) out.old }
    ensures len { length out.new ≡ length out.old }
{
    let denominators = table.denominators();
    fill_words(denominators, &mut out[..denominators.len()]);
}
