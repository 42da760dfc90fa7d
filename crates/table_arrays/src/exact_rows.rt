//! The rows of a table in a caller's arrays.

ghost use Rattle.std.specs.Prelude.{◌≡◌, ◌<◌, length};
ghost use Rattle.table_arrays.specs.Rows as spec;

use flat_arrays::Wide;

const LIMIT: usize = 1 << 27;

/// The rows of a table in arrays, one for each denominator. Rows, entries and control points are counted from 0.
#[repr(C)]
#[derive(Clone, Copy)]
pub struct ExactRows<'a> {
    /// The number of control points.
    pub controls: u32,
    /// The place of each row's first entry, and at the end the number of all entries.
    pub starts: &'a [u32],
    /// The control points of all entries.
    pub indices: &'a [u32],
    /// The numerators of all entries.
    pub numerators: &'a [Wide],
    /// The denominator of each row.
    pub denominators: &'a [Wide],
}

// Returns whether the arrays have the lengths that they need, and none above the limit of tables.
pub(crate) fn are_in_shape(rows: &ExactRows) -> bool
    ensures { result ≡ spec.is_in_shape rows.now }
{
    rows.controls as usize <= LIMIT
        && rows.denominators.len() <= LIMIT
        && rows.indices.len() <= LIMIT
        && rows.numerators.len() == rows.indices.len()
        && rows.starts.len() == rows.denominators.len() + 1
}

// Returns the denominator of a row.
pub(crate) fn denominator_of(rows: &ExactRows, r: usize) -> u128
    requires { r < length rows.now.denominators.now }
    ensures { result ≡ spec.number_at rows.now.denominators.now r }
{
    rows.denominators[r].natural()
}
