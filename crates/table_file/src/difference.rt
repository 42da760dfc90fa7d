//! The first row at which two tables differ.

ghost use Rattle.std.specs.Prelude.{◌≡◌, ◌<◌, bytes_eq, length};
ghost use Rattle.number_width.specs.Numbers.{numbers_in};
ghost use Rattle.stencil_apply.specs.Table.{row_at};
ghost use Rattle.far_model.specs.Stored as stored;
ghost use Rattle.far_model.specs.Stored.{are_same_rows, row_difference};

use number_width::NumberSlice;
use stencil_apply::StencilTable;

// Returns whether numbers of any width are the same.
fn are_same_numbers(a: &NumberSlice<'_>, b: &NumberSlice<'_>) -> bool
    ensures { result ≡ bytes_eq (numbers_in a.now) (numbers_in b.now) }
{
    if a.len() != b.len() {
        return false;
    }
    for at in 0..a.len() {
        if a.get(at) != b.get(at) {
            return false;
        }
    }
    true
}

// Returns whether both tables have the same row at a place.
fn have_same_row(a: &StencilTable, b: &StencilTable, row: u32) -> bool
    requires first { row < length a.now.rows }
    requires second { row < length b.now.rows }
    ensures { result ≡ are_same_rows (row_at a.now row) (row_at b.now row) }
{
    a.denominator(row) == b.denominator(row)
        && a.row_indices(row) == b.row_indices(row)
        && are_same_numbers(&a.row_numerators(row), &b.row_numerators(row))
}

// Returns the first row that differs, or that one of the tables lacks.
fn first_row(a: &StencilTable, b: &StencilTable) -> Option<u32>
    ensures { result ≡ row_difference 0 a.now.rows b.now.rows }
{
    let both = a.rows().min(b.rows());
    for row in 0..both {
        if !have_same_row(a, b, row) {
            return Some(row);
        }
    }
    if a.rows() == b.rows() {
        return None;
    }
    Some(both)
}

/// Returns the first row, counted from 0, at which two tables differ. The rows differ in the denominator, the control points
/// or the numerators, or one table has no such row. Returns 0 if the tables have different numbers of control points, and
/// `None` if they are equal.
pub fn first_difference(a: &StencilTable, b: &StencilTable) -> Option<u32>
    ensures { result ≡ stored.first_difference a.now b.now }
{
    if a.controls() != b.controls() {
        return Some(0);
    }
    first_row(a, b)
}
