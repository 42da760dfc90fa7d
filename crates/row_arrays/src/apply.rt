//! Evaluates a range of rows into an array.

ghost use Rattle.std.specs.Prelude.{◌≡◌, ◌-◌, ◌*◌, ◌≤◌, length, None, Some};
ghost use Rattle.row_arrays.specs.Reports.{Reports};
ghost use Rattle.row_arrays.specs.Rows as spec;

use crate::row::put_row;
use crate::rows::{ControlArrays, RowArrays, RowFault, RowRange};
use flat_arrays::Wide;

// Returns the fault of the range or of an array with this many places.
fn range_fault(
    rows: &RowArrays,
    controls: &ControlArrays,
    range: &RowRange,
    places: usize,
) -> Option<RowFault>
    ensures { result ≡ spec.range_fault rows.now controls.now range.now places }
{
    if controls.components == 0 || range.from > range.to || range.to as usize >= rows.starts.len() {
        return Some(RowFault::Range);
    }
    if (range.to - range.from) as usize * controls.components as usize > places {
        return Some(RowFault::Short);
    }
    None
}

// Writes the sums of the rows, and stops before the first sum that does not exist.
fn put_rows(
    rows: &RowArrays,
    controls: &ControlArrays,
    range: &RowRange,
    out: &mut [Wide],
) -> Result<(), RowFault>
    requires range { spec.range_fault rows.now controls.now range.now (length out.old) ≡ None }
    ensures fault { Reports (spec.first_row_fault rows.now controls.now (spec.rows_of range.now)) result }
    ensures put { spec.ArePut (spec.sums_of_rows rows.now controls.now (spec.rows_of range.now)) out.old out.new }
    ensures len { length out.new ≡ length out.old }
{
    let width = controls.components as usize;
    let mut at = 0;
    for row in range.from..range.to {
        put_row(rows, controls, row, &mut out[at..at + width])?;
        at += width;
    }
    Ok(())
}

/// Writes the sums of the rows of a range to the start of `out`, row by row, one for each component.
///
/// The sum of a row for a component takes the entries of the row in order. Each adds its numerator times that component of its control. The
/// sums are integers in two's complement. Ranges are independent, so threads may share the rows.
///
/// # Errors
///
/// The first fault in this order:
///
/// - `Range`: there are no components, `from` is above `to`, or `to` is not below the number of starts.
/// - `Short`: `out` has fewer places than there are sums.
/// - The fault of the first faulty row. `Row`: the arrays do not contain its entries, or an entry names no control. `Overflow`: a product
///   or a partial sum does not fit 128 bits.
///
/// `Range` and `Short` write nothing. `Row` and `Overflow` leave the sums before the first missing one written, and every other place
/// unchanged.
pub fn apply_rows(
    rows: &RowArrays,
    controls: &ControlArrays,
    range: &RowRange,
    out: &mut [Wide],
) -> Result<(), RowFault>
    ensures fault { Reports (spec.apply_fault rows.now controls.now range.now (length out.old)) result }
    ensures put { spec.ArePut (spec.sums_written rows.now controls.now range.now (length out.old)) out.old out.new }
    ensures len { length out.new ≡ length out.old }
{
    match range_fault(rows, controls, range, out.len()) {
        Some(fault) => Err(fault),
        None => put_rows(rows, controls, range, out),
    }
}
