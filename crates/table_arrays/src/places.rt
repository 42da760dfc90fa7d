//! A table in the arrays of a caller.

ghost use Rattle.std.specs.Prelude.{◌≡◌, ◌≤◌, length, true, false};
ghost use Rattle.flat_arrays.specs.Places.{IsSameArray};
ghost use Rattle.table_arrays.specs.Places as spec;

use crate::doubles::put_weights64;
use crate::floats::put_weights32;
use crate::numbers::{put_denominators, put_numerators};
use crate::rows::{put_indices, put_starts};
use flat_arrays::Wide;
use stencil_apply::StencilTable;

/// The number of control points, rows and entries of a table.
#[repr(C)]
#[derive(Clone, Copy, Debug, PartialEq, Eq)]
pub struct TableCounts {
    /// The number of control points.
    pub controls: u32,
    /// The number of rows.
    pub rows: u32,
    /// The number of entries of all rows together.
    pub entries: u64,
}

/// Returns the number of control points, rows and entries of the table.
pub fn counts_of(table: &StencilTable) -> TableCounts
    ensures { result ≡ spec.counts_of table.now }
{
    TableCounts {
        controls: table.controls(),
        rows: table.rows(),
        entries: table.entries(),
    }
}

// Returns whether the arrays are long enough for the rows of a table.
fn are_rows_long_enough(counts: &TableCounts, starts: &[u32], indices: &[u32]) -> bool
    ensures { result ≡ spec.are_rows_long_enough counts.now starts.now indices.now }
{
    (counts.rows as u64) < starts.len() as u64 && counts.entries <= indices.len() as u64
}

/// The arrays of a caller for a table with exact weights: a numerator for each entry, and a denominator for each row.
#[repr(C)]
#[derive(Drop)]
pub struct ExactPlaces<'a> {
    /// The start of each row in the list of entries, then the end of the last row.
    pub starts: &'a mut [u32],
    /// The control points of all entries, counted from 0.
    pub indices: &'a mut [u32],
    /// The numerator of each entry.
    pub numerators: &'a mut [Wide],
    /// The denominator of each row.
    pub denominators: &'a mut [Wide],
}

// Returns whether each array is long enough.
fn are_exact_long_enough(counts: &TableCounts, places: &ExactPlaces) -> bool
    ensures { result ≡ spec.are_exact_long_enough counts.now places.now }
{
    are_rows_long_enough(counts, places.starts, places.indices)
        && counts.entries <= places.numerators.len() as u64
        && counts.rows as u64 <= places.denominators.len() as u64
}

/// Writes a table to the front of the arrays, and returns whether it did. It returns `false` and writes nothing if some array
/// is too short. The call leaves later places unchanged.
pub fn put_exact_table(table: &StencilTable, places: &mut ExactPlaces) -> bool
    ensures long_enough { result ≡ spec.are_exact_long_enough (spec.counts_of table.now) places.old }
    ensures written { result ≡ true → spec.IsExactWritten table.now places.new }
    ensures rest { spec.IsExactRestKept (spec.counts_of table.now) places.old places.new }
    ensures kept { result ≡ false → places.new ≡ places.old }
    ensures starts { IsSameArray places.old.starts places.new.starts }
    ensures indices { IsSameArray places.old.indices places.new.indices }
    ensures numerators { IsSameArray places.old.numerators places.new.numerators }
    ensures denominators { IsSameArray places.old.denominators places.new.denominators }
{
    if !are_exact_long_enough(&counts_of(table), places) {
        return false;
    }
    put_starts(table, places.starts);
    put_indices(table, places.indices);
    put_numerators(table, places.numerators);
    put_denominators(table, places.denominators);
    true
}

/// The arrays of a caller for a table whose weights are the bits of binary64 numbers.
#[repr(C)]
#[derive(Drop)]
pub struct DoublePlaces<'a> {
    /// The start of each row in the list of entries, then the end of the last row.
    pub starts: &'a mut [u32],
    /// The control points of all entries, counted from 0.
    pub indices: &'a mut [u32],
    /// The weight of each entry, as the bits of a binary64 number.
    pub weights: &'a mut [u64],
}

// Returns whether each array is long enough.
fn are_doubles_long_enough(counts: &TableCounts, places: &DoublePlaces) -> bool
    ensures { result ≡ spec.are_doubles_long_enough counts.now places.now }
{
    are_rows_long_enough(counts, places.starts, places.indices)
        && counts.entries <= places.weights.len() as u64
}

/// Writes a table to the front of the arrays, and returns whether it did. It returns `false` and writes nothing if some array
/// is too short. The call leaves later places unchanged.
pub fn put_double_table(table: &StencilTable, places: &mut DoublePlaces) -> bool
    ensures long_enough { result ≡ spec.are_doubles_long_enough (spec.counts_of table.now) places.old }
    ensures written { result ≡ true → spec.AreDoublesWritten table.now places.new }
    ensures rest { spec.IsDoubleRestKept (spec.counts_of table.now) places.old places.new }
    ensures kept { result ≡ false → places.new ≡ places.old }
    ensures starts { IsSameArray places.old.starts places.new.starts }
    ensures indices { IsSameArray places.old.indices places.new.indices }
    ensures weights { IsSameArray places.old.weights places.new.weights }
{
    if !are_doubles_long_enough(&counts_of(table), places) {
        return false;
    }
    put_starts(table, places.starts);
    put_indices(table, places.indices);
    put_weights64(table, places.weights);
    true
}

/// The arrays of a caller for a table whose weights are the bits of binary32 numbers.
#[repr(C)]
#[derive(Drop)]
pub struct FloatPlaces<'a> {
    /// The start of each row in the list of entries, then the end of the last row.
    pub starts: &'a mut [u32],
    /// The control points of all entries, counted from 0.
    pub indices: &'a mut [u32],
    /// The weight of each entry, as the bits of a binary32 number.
    pub weights: &'a mut [u32],
}

// Returns whether each array is long enough.
fn are_floats_long_enough(counts: &TableCounts, places: &FloatPlaces) -> bool
    ensures { result ≡ spec.are_floats_long_enough counts.now places.now }
{
    are_rows_long_enough(counts, places.starts, places.indices)
        && counts.entries <= places.weights.len() as u64
}

/// Writes a table to the front of the arrays, and returns whether it did. It returns `false` and writes nothing if some array
/// is too short. The call leaves later places unchanged.
pub fn put_float_table(table: &StencilTable, places: &mut FloatPlaces) -> bool
    ensures long_enough { result ≡ spec.are_floats_long_enough (spec.counts_of table.now) places.old }
    ensures written { result ≡ true → spec.AreFloatsWritten table.now places.new }
    ensures rest { spec.IsFloatRestKept (spec.counts_of table.now) places.old places.new }
    ensures kept { result ≡ false → places.new ≡ places.old }
    ensures starts { IsSameArray places.old.starts places.new.starts }
    ensures indices { IsSameArray places.old.indices places.new.indices }
    ensures weights { IsSameArray places.old.weights places.new.weights }
{
    if !are_floats_long_enough(&counts_of(table), places) {
        return false;
    }
    put_starts(table, places.starts);
    put_indices(table, places.indices);
    put_weights32(table, places.weights);
    true
}
