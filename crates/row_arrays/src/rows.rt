//! Rows and controls in arrays of a caller.

ghost use Rattle.std.specs.Prelude.{Some};
ghost use Rattle.row_arrays.specs.FaultText.{row_fault_text};

use flat_arrays::Wide;
use std::fmt;

/// Rows in flat arrays. Row r, counted from 0, has the entries from `starts[r]` up to `starts[r + 1]`. Each entry has a control and a
/// numerator.
#[repr(C)]
#[derive(Clone, Copy)]
pub struct RowArrays<'a> {
    /// Where the entries of each row begin, then where the last row ends.
    pub starts: &'a [u32],
    /// The control of each entry, counted from 0.
    pub indices: &'a [u32],
    /// The numerator of each entry, a natural number.
    pub numerators: &'a [Wide],
}

impl RowArrays<'_> {
    ghost use Rattle.std.specs.Prelude.{◌≡◌, ◌<◌, length};
    ghost use Rattle.row_arrays.specs.Rows.{row_start};

    // Returns where the entries of a row begin, or where the last row ends.
    pub(crate) fn start(&self, row: usize) -> usize
        requires { row < length self.now.starts.now }
        ensures { result ≡ row_start self.now row }
    {
        self.starts[row] as usize
    }
}

/// Controls in a flat array, each with the same number of integers.
#[repr(C)]
#[derive(Clone, Copy)]
pub struct ControlArrays<'a> {
    /// The integers of all controls in two's complement, control by control.
    pub numbers: &'a [Wide],
    /// How many integers each control has.
    pub components: u32,
}

/// The rows from `from` up to `to`, counted from 0; `to` is not included.
#[repr(C)]
#[derive(Clone, Copy, Debug, PartialEq, Eq)]
pub struct RowRange {
    /// The first row.
    pub from: u32,
    /// The row after the last one.
    pub to: u32,
}

/// The fault that stopped the evaluation of rows.
#[derive(Clone, Copy, Debug, PartialEq, Eq)]
pub enum RowFault {
    /// The controls have no components, or the range is not a range of the rows.
    Range,
    /// The output has fewer places than there are sums.
    Short,
    /// The arrays do not contain the entries of this row, counted from 0, or an entry names no control.
    Row(u32),
    /// A product or a partial sum of this row, counted from 0, does not fit 128 bits.
    Overflow(u32),
}

impl fmt::Display for RowFault {
    ghost output = { λ fault. Some (row_fault_text fault) };

    fn fmt<W: fmt::Write>(&self, f: &mut fmt::Formatter<W>) -> fmt::Result {
        match *self {
            RowFault::Range => f.write_str("no range of the rows"),
            RowFault::Short => f.write_str("the array is too short"),
            RowFault::Row(row) => write!(f, "row {row} is not within the arrays"),
            RowFault::Overflow(row) => write!(f, "row {row} has a sum that does not fit"),
        }
    }
}

impl std::error::Error for RowFault {}
