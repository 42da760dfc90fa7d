//! Writes the sums of one row into an array.

ghost use Rattle.std.specs.Prelude.{◌≡◌, ◌+◌, ◌<◌, ◌++◌, ◌∷◌, [], length, map, take, drop, nat_lt};
ghost use Rattle.std.specs.List.{list_all};
ghost use Rattle.std.specs.Option.{some_prefix};
ghost use Rattle.flat_arrays.specs.Words.{integer_of};
ghost use Rattle.row_arrays.specs.Reports.{Reports};
ghost use Rattle.row_arrays.specs.Rows.{ArePut, control_count, is_within, row_fault, row_sums};

use crate::rows::{ControlArrays, RowArrays, RowFault};
use crate::sum::sum_of_row;
use flat_arrays::{Wide, put_item};

// Returns how many controls there are.
fn count_of(controls: &ControlArrays) -> usize
    requires { 0 < controls.now.components }
    ensures { result ≡ control_count controls.now }
{
    controls.numbers.len() / controls.components as usize
}

// Returns whether every index names a control.
fn are_controls(indices: &[u32], count: usize) -> bool
    ensures { result ≡ list_all (λ control. nat_lt control count) indices.now }
{
    indices.iter().all(|control| (*control as usize) < count)
}

// Returns whether the arrays contain the entries of a row, and each entry names a control.
fn is_row_within(rows: &RowArrays, controls: &ControlArrays, row: u32) -> bool
    requires row { row + 1 < length rows.now.starts.now }
    requires components { 0 < controls.now.components }
    ensures { result ≡ is_within rows.now controls.now row }
{
    let start = rows.start(row as usize);
    let end = rows.start(row as usize + 1);
    start <= end
        && end <= rows.indices.len()
        && end <= rows.numerators.len()
        && are_controls(&rows.indices[start..end], count_of(controls))
}

// Writes the sum of a row for a component at that component's place.
fn put_sum(out: &mut [Wide], component: u32, sum: i128)
    requires { component < length out.old }
    ensures written { map integer_of (take (component + 1) out.new) ≡ map integer_of (take component out.old) ++ sum ∷ [] }
    ensures rest { drop (component + 1) out.new ≡ drop (component + 1) out.old }
    ensures len { length out.new ≡ length out.old }
{
    put_item(out, component as usize, Wide::of_integer(sum));
}

// Writes the sums of a row, and stops before the first sum that does not exist.
pub(crate) fn put_row(
    rows: &RowArrays,
    controls: &ControlArrays,
    row: u32,
    out: &mut [Wide],
) -> Result<(), RowFault>
    requires row { row + 1 < length rows.now.starts.now }
    requires components { 0 < controls.now.components }
    requires fits { length out.old ≡ controls.now.components }
    ensures fault { Reports (row_fault rows.now controls.now row) result }
    ensures put { ArePut (some_prefix (row_sums rows.now controls.now row)) out.old out.new }
    ensures len { length out.new ≡ length out.old }
{
    if !is_row_within(rows, controls, row) {
        return Err(RowFault::Row(row));
    }
    for component in 0..controls.components {
        match sum_of_row(rows, controls, row, component) {
            Some(sum) => put_sum(out, component, sum),
            None => return Err(RowFault::Overflow(row)),
        }
    }
    Ok(())
}
