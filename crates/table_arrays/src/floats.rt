//! The weights of the entries, as the nearest binary32 numbers.

ghost use Rattle.std.specs.Prelude.{◌≡◌, ◌^◌, ◌<◌, ◌≤◌, pos, length, map, take, drop};
ghost use Rattle.std.specs.List.{All};
ghost use Rattle.nearest_float.specs.Binary.{binary32};
ghost use Rattle.nearest_float.specs.NearestArrays.{AreNearest};
ghost use Rattle.stencil_apply.specs.Table.{entries_of, row_at};
ghost use Rattle.table_arrays.specs.Flat.{fractions_of, row_fractions};

use nearest_float::put_binary32;
use number_width::{Natural, NumberSlice};
use stencil_apply::StencilTable;

// Fills the array with the binary32 numbers nearest to fractions with one denominator.
fn fill_binary32<T: Natural>(numerators: &[T], den: u128, out: &mut [u32])
    requires equal { length out.old ≡ length numerators.now }
    requires positive { 0 < den }
    requires den_fits { den < 2 ^ 127 }
    requires fits { All (λ numerator. T.value numerator < 2 ^ 127) numerators.now }
    ensures nearest { AreNearest binary32 (map (λ numerator. (pos (T.value numerator), den)) numerators.now) out.new }
    ensures len { length out.new ≡ length out.old }
{
    for k in 0..numerators.len() {
        put_binary32(out, k, numerators[k].wide() as i128, den);
    }
}

// Fills the array with the binary32 numbers nearest to the weights of a row.
fn fill_weights32(table: &StencilTable, row: u32, out: &mut [u32])
    requires inside { row < length table.now.rows }
    requires equal { length out.old ≡ length (row_at table.now row).shares }
    ensures nearest { AreNearest binary32 (row_fractions (row_at table.now row)) out.new }
    ensures len { length out.new ≡ length (row_at table.now row).shares }
{
    table.facts();
    let den = table.denominator(row);
    match table.row_numerators(row) {
        NumberSlice::Narrow(numerators) => fill_binary32(numerators, den, out),
        NumberSlice::Wide(numerators) => fill_binary32(numerators, den, out),
    }
}

/// Writes the bits of the binary32 number nearest to the weight of each entry, row by row. A weight is a numerator over its
/// row's denominator.
///
/// The array has at least one place for each entry. The call leaves later places unchanged.
pub fn put_weights32(table: &StencilTable, out: &mut [u32])
    requires fits { entries_of table.now.rows ≤ length out.old }
    ensures written { AreNearest binary32 (fractions_of table.now.rows) (take (entries_of table.now.rows) out.new) }
    ensures rest { drop (entries_of table.now.rows) out.new ≡ drop (entries_of table.now.rows) out.old }
    ensures len { length out.new ≡ length out.old }
{
    let mut at = 0;
    for row in 0..table.rows() {
        let len = table.row_len(row) as usize;
        fill_weights32(table, row, &mut out[at..at + len]);
        at += len;
    }
}
