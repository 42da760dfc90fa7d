//! Laws of all tables and rows.
//!
//! Each public function here takes nothing, does nothing and returns nothing: its clauses are the laws.

ghost use Rattle.std.specs.Prelude.{◌≡◌, ℕ, ◌+◌, ◌≤◌, ℤ, pos, ◌*ℤ◌, List, length, map};
ghost use Rattle.ratio128.specs.Numbers.{zeros};
ghost use Rattle.stencil_apply.specs.Table.{Row, Table, IsRow, entries_of, sum_of_row};
ghost use Rattle.stencil_apply.specs.Means.{moved};
ghost use Rattle.stencil_apply.specs.Laws.{SummedRow, entries_in, identity_of, numerators_by_place};

/// Two ranges of rows that meet have as many entries as both together, and all rows have the entries of the table. So ranges
/// that cover each row once take as many steps as the table has entries, in any order.
pub fn ranges_cover_the_table()
    ensures together { (table : Table) (from middle to : ℕ) → from ≤ middle → middle ≤ to → entries_in table from middle + entries_in table middle to ≡ entries_in table from to }
    ensures whole { (table : Table) → entries_in table 0 (length table.rows) ≡ entries_of table.rows }
{}

/// If every control moves by one list of whole numbers, a row's sum moves by the row's denominator times that list. So the
/// value over the denominator moves as the controls do.
pub fn rows_are_means()
    ensures { (sum : SummedRow) (by : ℤ) → sum_of_row sum.start (map (moved by) sum.controls) sum.row
        ≡ moved (pos sum.row.den *ℤ by) (sum_of_row sum.start sum.controls sum.row) }
{}

/// Over the controls of the identity, the sum of a row has each numerator at the place of its control, and 0 elsewhere. The
/// control of the identity at a place has 1 there and 0 elsewhere.
pub fn rows_of_the_identity()
    ensures { (row : Row) (place : List ℤ) → IsRow (length place) row → sum_of_row (zeros place) (identity_of (length place)) row
        ≡ numerators_by_place (length place) row }
{}
