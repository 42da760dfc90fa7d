//! The sum of a row.

ghost use Rattle.std.specs.Prelude.{◌≡◌, ◌+◌, ◌-◌, ◌*◌, ◌<◌, ◌≤◌, length, get_or, map, Some, IsTrue};
ghost use Rattle.std.specs.List.{range_with_len};
ghost use Rattle.flat_arrays.specs.Words.{integer_of};
ghost use Rattle.row_arrays.specs.Sums.{plus, sum_of};
ghost use Rattle.row_arrays.specs.Rows.{AreEntries, is_within, control_count, product_at, row_sum, wide_at};

use crate::product::plus_product;
use crate::rows::{ControlArrays, RowArrays};

// Returns a component of a control.
fn number_of(controls: &ControlArrays, control: u32, component: u32) -> i128
    requires control { control < control_count controls.now }
    requires component { component < controls.now.components }
    ensures { result ≡ integer_of (wide_at controls.now.numbers.now (control * controls.now.components + component)) }
{
    controls.numbers[control as usize * controls.components as usize + component as usize].integer()
}

// Returns the sum plus the product of an entry.
fn plus_entry(
    rows: &RowArrays,
    controls: &ControlArrays,
    entry: usize,
    component: u32,
    sum: i128,
) -> Option<i128>
    requires index { entry < length rows.now.indices.now }
    requires numerator { entry < length rows.now.numerators.now }
    requires control { get_or rows.now.indices.now entry 0 < control_count controls.now }
    requires component { component < controls.now.components }
    ensures { result ≡ plus (Some sum) (product_at rows.now controls.now component entry) }
{
    let number = number_of(controls, rows.indices[entry], component);
    plus_product(sum, rows.numerators[entry].natural(), number)
}

// Returns the sum over the entries from `start` up to `end`.
fn sum_of_entries(
    rows: &RowArrays,
    controls: &ControlArrays,
    component: u32,
    start: usize,
    end: usize,
) -> Option<i128>
    requires within { AreEntries rows.now controls.now start end }
    requires component { component < controls.now.components }
    ensures { result ≡ sum_of (map (product_at rows.now controls.now component) (range_with_len start (end - start))) }
{
    let mut sum = 0;
    for entry in start..end {
        match plus_entry(rows, controls, entry, component, sum) {
            Some(next) => sum = next,
            None => return None,
        }
    }
    Some(sum)
}

// Returns the sum of a row over its entries.
pub(crate) fn sum_of_row(
    rows: &RowArrays,
    controls: &ControlArrays,
    row: u32,
    component: u32,
) -> Option<i128>
    requires row { row + 1 < length rows.now.starts.now }
    requires within { IsTrue (is_within rows.now controls.now row) }
    requires component { component < controls.now.components }
    ensures { result ≡ row_sum rows.now controls.now row component }
{
    let start = rows.start(row as usize);
    let end = rows.start(row as usize + 1);
    sum_of_entries(rows, controls, component, start, end)
}
