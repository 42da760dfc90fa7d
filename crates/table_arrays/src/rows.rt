//! The starts of the rows, and the control points of their entries.

ghost use Rattle.std.specs.Prelude.{◌≡◌, ◌+◌, ◌≤◌, length, take, drop};
ghost use Rattle.stencil_apply.specs.Table.{entries_of};
ghost use Rattle.table_arrays.specs.Flat.{indices_of, row_starts};

use flat_arrays::put_items;
use stencil_apply::StencilTable;

/// Writes the start of each row in the list of entries, counted from 0, and then the end of the last row.
///
/// The array has at least one place more than the table has rows. The call leaves places after the first `rows + 1`
/// unchanged.
pub fn put_starts(table: &StencilTable, out: &mut [u32])
    requires fits { length table.now.rows + 1 ≤ length out.old }
    ensures written { take (length table.now.rows + 1) out.new ≡ row_starts table.now.rows }
    ensures rest { drop (length table.now.rows + 1) out.new ≡ drop (length table.now.rows + 1) out.old }
    ensures len { length out.new ≡ length out.old }
{
    table.facts();
    let mut at = 0;
    for row in 0..table.rows() {
        out[row as usize] = at;
        at += table.row_len(row);
    }
    out[table.rows() as usize] = at;
}

/// Writes the control points of all entries, counted from 0, row by row.
///
/// The array has at least one place for each entry. The call leaves later places unchanged.
pub fn put_indices(table: &StencilTable, out: &mut [u32])
    requires fits { entries_of table.now.rows ≤ length out.old }
    ensures written { take (entries_of table.now.rows) out.new ≡ indices_of table.now.rows }
    ensures rest { drop (entries_of table.now.rows) out.new ≡ drop (entries_of table.now.rows) out.old }
    ensures len { length out.new ≡ length out.old }
{
    let mut at = 0;
    for row in 0..table.rows() {
        let indices = table.row_indices(row);
        put_items(out, at, indices);
        at += indices.len();
    }
}
