//! Exact evaluation of rows.

ghost use Rattle.std.specs.Prelude.{◌≡◌, ◌≤◌, length};
ghost use Rattle.row_arrays.specs.Rows.{ArePut, apply_fault, sums_written};
ghost use Rattle.far_c.specs.Status.{AnswersFault, IsKeptIfDone};
ghost use Rattle.far_c.specs.Rows.{record_of_row_fault};

use crate::status::record;
use array_answers::{BAD_ARGUMENT, BAD_ARRAYS, DONE, FaultRecord, TOO_SHORT};
use flat_arrays::Wide;
use row_arrays::{ControlArrays, RowArrays, RowFault, RowRange, apply_rows};

// The status of an overflow, also of a run.
const OVERFLOW: u32 = 8;

// The record of rows that cannot be evaluated.
fn record_of_row_fault(fault: RowFault) -> FaultRecord
    ensures row { result ≡ record_of_row_fault fault }
    ensures status { 1 ≤ result.status }
{
    match fault {
        RowFault::Range => record(BAD_ARGUMENT, 1, 0),
        RowFault::Short => record(TOO_SHORT, 0, 0),
        RowFault::Row(row) => record(BAD_ARRAYS, 17, row as u64),
        RowFault::Overflow(row) => record(OVERFLOW, 16, row as u64),
    }
}

/// Writes the sums of the rows of a range, row by row, one for each component of the controls.
///
/// Errors:
///
/// - status 19, kind 1: the rows have no such range, or the controls no components;
/// - status 17, kind 17, the row: its entries are not within the arrays;
/// - status 8, kind 16, the row: a sum does not fit.
#[unsafe(no_mangle)]
pub extern "C" fn far_apply_rows(
    rows: &RowArrays,
    controls: &ControlArrays,
    range: &RowRange,
    out: &mut [Wide],
    fault: &mut FaultRecord,
) -> u32
    ensures answer { AnswersFault record_of_row_fault (apply_fault rows.now controls.now range.now (length out.old)) result fault.new }
    ensures put { ArePut (sums_written rows.now controls.now range.now (length out.old)) out.old out.new }
    ensures len { length out.new ≡ length out.old }
    ensures stays { IsKeptIfDone result fault.old fault.new }
{
    match apply_rows(rows, controls, range, out) {
        Ok(()) => DONE,
        Err(found) => {
            *fault = record_of_row_fault(found);
            fault.status
        }
    }
}
