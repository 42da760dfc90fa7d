//! The columns of a table.

ghost use Rattle.std.specs.Prelude.{◌≡◌, ◌+◌, ◌<◌, ◌≤◌, ◌^◌, ℕ, [], ◌∷◌, length, map, take, get_or, replicate, sum, IfOk};
ghost use Rattle.number_width.specs.Numbers.{numbers_in, width_for};
ghost use Rattle.stencil_apply.specs.Table.{entries_of, greatest_of};
ghost use Rattle.stencil_session.specs.Columns.{ArePut, AreCounts, cells_from, cells_before, columns_of};

use crate::parts::Parts;
use number_width::NumberSlice;
use ratio128::Memory;
use std::alloc::Global;
use std::marker::Model;
use stencil_apply::StencilTable;

// For each control point the rows of a table that have it, ascending, each with the control's numerator.
#[derive(Drop)]
pub(crate) struct Columns {
    parts: Parts,
}

impl Model for Columns {
    ghost use Rattle.std.specs.Prelude.{List};
    ghost use Rattle.stencil_session.specs.Columns.{Entry, columns_in, ArePacked};

    ghost Value = { List (List Entry) };

    ghost view = { λ c. columns_in c.parts };

    ghost invariant = { λ c. ArePacked c.parts };
}

// Counts the entries of a row, each at its control.
fn count_row(table: &StencilTable, row: u32, counts: &mut Vec<u32>)
    requires row { row < length table.now.rows }
    requires before { AreCounts table.now.controls (cells_before table.now row) counts.old.items }
    ensures { AreCounts table.now.controls (cells_before table.now (row + 1)) counts.new.items }
{
    table.facts();
    for control in table.row_indices(row) {
        counts[*control as usize] += 1;
    }
}

// Counts the entries of all rows, each at its control. The counts are zeros before.
fn count_rows(table: &StencilTable, counts: &mut Vec<u32>)
    requires { AreCounts table.now.controls [] counts.old.items }
    ensures { AreCounts table.now.controls (cells_from 0 table.now.rows) counts.new.items }
{
    for row in 0..table.rows() {
        count_row(table, row, counts);
    }
}

// Replaces the counts by the starts of the columns: the sums of the counts before.
fn begin_columns(counts: &mut Vec<u32>)
    requires { sum counts.old.items ≤ 2 ^ 27 }
    ensures long { length counts.new.items ≡ length counts.old.items }
    ensures begins { (i : ℕ) → i < length counts.old.items → get_or counts.new.items i 0 ≡ sum (take i counts.old.items) }
{
    let mut next = 0;
    for count in counts.iter_mut() {
        let here = *count;
        *count = next;
        next += here;
    }
}

// Writes the entries of a row into their columns.
fn put_row(table: &StencilTable, row: u32, parts: &mut Parts)
    requires row { row < length table.now.rows }
    requires width { parts.old.numerators.width ≡ width_for (greatest_of table.now) }
    requires before { ArePut table.now.controls (cells_from 0 table.now.rows) (cells_before table.now row) parts.old }
    ensures put { ArePut table.now.controls (cells_from 0 table.now.rows) (cells_before table.now (row + 1)) parts.new }
    ensures width { parts.new.numerators.width ≡ parts.old.numerators.width }
{
    table.facts();
    let controls = table.row_indices(row);
    let numerators = table.row_numerators(row);
    for at in 0..controls.len() {
        parts.put(controls[at], row, numerators.get(at));
    }
}

// Writes the entries of all rows into their columns.
fn put_rows(table: &StencilTable, parts: &mut Parts)
    requires width { parts.old.numerators.width ≡ width_for (greatest_of table.now) }
    requires empty { ArePut table.now.controls (cells_from 0 table.now.rows) [] parts.old }
    ensures { ArePut table.now.controls (cells_from 0 table.now.rows) (cells_from 0 table.now.rows) parts.new }
{
    for row in 0..table.rows() {
        put_row(table, row, parts);
    }
}

// Writes all entries into their columns, which are zeros before.
fn fill(table: &StencilTable, parts: &mut Parts)
    requires ends { parts.old.ends.items ≡ replicate table.now.controls 0 }
    requires rows { length parts.old.rows.items ≡ entries_of table.now.rows }
    requires numerators { length parts.old.numerators.items ≡ entries_of table.now.rows }
    requires width { parts.old.numerators.width ≡ width_for (greatest_of table.now) }
    ensures { ArePut table.now.controls (cells_from 0 table.now.rows) (cells_from 0 table.now.rows) parts.new }
{
    table.facts();
    count_rows(table, &mut parts.ends);
    begin_columns(&mut parts.ends);
    put_rows(table, parts);
}

impl Columns {
    // Returns the columns of a table, and takes all their memory. The time is proportional to the number of controls, rows
    // and entries.
    pub(crate) fn of(alloc: Global, table: &StencilTable) -> Result<Columns, Memory>
        ensures { IfOk result (λ columns. columns ≡ columns_of table.now) }
    {
        table.facts();
        let mut parts = Parts::zeros(alloc, table)?;
        fill(table, &mut parts);
        Ok(Columns { parts })
    }

    // Returns the rows that have a control.
    pub(crate) fn rows(&self, control: u32) -> &[u32]
        requires { control < length self.now }
        ensures { result.now ≡ map (λ entry. entry.0) (get_or self.now control []) }
    {
        self.parts.rows_of(control)
    }

    // Returns the control's numerator in each of these rows.
    pub(crate) fn numerators(&self, control: u32) -> NumberSlice<'_>
        requires { control < length self.now }
        ensures { numbers_in result ≡ map (λ entry. entry.1) (get_or self.now control []) }
    {
        self.parts.numerators_of(control)
    }
}
