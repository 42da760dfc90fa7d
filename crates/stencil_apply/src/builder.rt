//! The construction of a table, row by row.

ghost use Rattle.std.specs.Prelude.{◌≡◌, ◌+◌, ◌-◌, ◌^◌, ◌<◌, ◌≤◌, length, map, IfOk, OnOk, OnErr, IsOk};
ghost use Rattle.number_width.specs.Numbers.{most_of, width_for};
ghost use Rattle.number_width.specs.declared.width.Width.TheVariants as width;
ghost use Rattle.stencil_apply.specs.Table.{IsRow, entries_of};
ghost use Rattle.stencil_apply.specs.Arrays.{row_of, row_of_parts};
ghost use Rattle.stencil_apply.specs.Built.{no_rows, with_row, wider};

use crate::arrays::Arrays;
use crate::entry::Entry;
use crate::push::{push_parts, push_row, reserve_row};
use crate::table::StencilTable;
use number_width::{Natural, NumberList, Width};
use ratio128::Memory;
use std::alloc::Global;
use std::marker::Model;

/// A table that gets rows at its end. It records for how many more rows and entries it has memory.
#[derive(Drop)]
pub struct TableBuilder {
    alloc: Global,
    arrays: Arrays,
    room_rows: u32,
    room_entries: u64,
}

impl Model for TableBuilder {
    ghost use Rattle.stencil_apply.specs.Arrays.{table_of};
    ghost use Rattle.stencil_apply.specs.Built.{Built, HaveCapacity};

    ghost Value = { Built };

    ghost view = { λ b. record { table = table_of b.arrays; width = b.arrays.numerators.width; room_rows = b.room_rows; room_entries = b.room_entries } };

    ghost invariant = { λ b. HaveCapacity b.arrays b.room_rows b.room_entries };
}

// Takes a row with `taken` entries from the reserved rows and entries.
fn take_capacity(rows: &mut u32, entries: &mut u64, taken: usize)
    ensures rows { rows.new ≡ rows.old - 1 }
    ensures entries { entries.new ≡ entries.old - taken }
{
    *rows = rows.saturating_sub(1);
    *entries = entries.saturating_sub(taken as u64);
}

impl TableBuilder {
    /// Returns a table without rows over `controls` control points, at most 2^27. Its numerators have 64 bits. The call
    /// reserves no memory.
    pub fn new(alloc: Global, controls: u32) -> TableBuilder
        requires { controls ≤ 2 ^ 27 }
        ensures { result ≡ record { table = no_rows controls; width = width.Narrow; room_rows = 0; room_entries = 0 } }
    {
        TableBuilder {
            alloc,
            arrays: Arrays {
                controls,
                greatest: 1,
                ends: Vec::new(alloc),
                indices: Vec::new(alloc),
                numerators: NumberList::new(alloc),
                denominators: Vec::new(alloc),
            },
            room_rows: 0,
            room_entries: 0,
        }
    }

    /// Returns a table without rows over `controls` control points, with numerators of a width. It reserves memory for `rows`
    /// rows and `entries` entries in all. Each number is at most 2^27. Reports [`Memory`] where memory runs out.
    pub fn with_room(
        alloc: Global,
        controls: u32,
        rows: u32,
        entries: u64,
        width: Width,
    ) -> Result<TableBuilder, Memory>
        requires controls { controls ≤ 2 ^ 27 }
        requires rows { rows ≤ 2 ^ 27 }
        requires entries { entries ≤ 2 ^ 27 }
        ensures { IfOk result (λ b. b ≡ record { table = no_rows controls; width = width; room_rows = rows; room_entries = entries }) }
    {
        Ok(TableBuilder {
            alloc,
            arrays: Arrays {
                controls,
                greatest: 1,
                ends: Vec::with_capacity(alloc, rows as usize)?,
                indices: Vec::with_capacity(alloc, entries as usize)?,
                numerators: NumberList::with_capacity(alloc, width, entries as usize)?,
                denominators: Vec::with_capacity(alloc, rows as usize)?,
            },
            room_rows: rows,
            room_entries: entries,
        })
    }

    /// Returns how many more rows, and how many more entries in all, take no memory.
    pub fn room(&self) -> (u32, u64)
        ensures rows { result.0 ≡ self.now.room_rows }
        ensures entries { result.1 ≡ self.now.room_entries }
    {
        (self.room_rows, self.room_entries)
    }

    /// Adds a row at the end, over a denominator from 1 to 2^126 - 1. Its control points ascend, each once, counted from 0.
    /// Its numerators are above 0 and sum to the denominator. The table has fewer than 2^27 rows before, and at most 2^27
    /// entries with this row. Numerators get 128 bits from the first denominator above 64 bits on.
    ///
    /// Reports [`Memory`] only where the row and its entries were not reserved, or the denominator has more bits than the
    /// numerators so far. The table is then unchanged.
    pub fn add_row(&mut self, denominator: u128, row: &[Entry]) -> Result<(), Memory>
        requires row { IsRow self.old.table.controls (row_of denominator row.now) }
        requires rows { length self.old.table.rows < 2 ^ 27 }
        requires entries { entries_of self.old.table.rows + length row.now ≤ 2 ^ 27 }
        ensures added { OnOk result (self.new.table ≡ with_row (row_of denominator row.now) self.old.table) }
        ensures width { OnOk result (self.new.width ≡ wider self.old.width (width_for denominator)) }
        ensures unchanged { OnErr result (self.new ≡ self.old) }
        ensures sure { 0 < self.old.room_rows → length row.now ≤ self.old.room_entries → denominator ≤ most_of self.old.width → IsOk result }
        ensures room_rows { OnOk result (self.new.room_rows ≡ self.old.room_rows - 1) }
        ensures room_entries { OnOk result (self.new.room_entries ≡ self.old.room_entries - length row.now) }
    {
        reserve_row(&mut self.arrays, self.alloc, denominator, row.len())?;
        push_row(&mut self.arrays, denominator, row);
        take_capacity(&mut self.room_rows, &mut self.room_entries, row.len());
        Ok(())
    }

    /// Adds a row at the end, over a denominator from 1 to 2^126 - 1, from control points and numerators in two lists. The
    /// control points ascend, each once, counted from 0. There are as many numerators; they are above 0 and sum to the
    /// denominator. The table has fewer than 2^27 rows before, and at most 2^27 entries with this row. Numerators get 128
    /// bits from the first denominator above 64 bits on.
    ///
    /// Reports [`Memory`] only where the row and its entries were not reserved, or the denominator has more bits than the
    /// numerators so far. The table is then unchanged.
    pub fn add_parts<T: Natural>(
        &mut self,
        denominator: u128,
        indices: &[u32],
        numerators: &[T],
    ) -> Result<(), Memory>
        requires equal { length numerators.now ≡ length indices.now }
        requires row { IsRow self.old.table.controls (row_of_parts denominator indices.now (map T.value numerators.now)) }
        requires rows { length self.old.table.rows < 2 ^ 27 }
        requires entries { entries_of self.old.table.rows + length indices.now ≤ 2 ^ 27 }
        ensures added { OnOk result (self.new.table ≡ with_row (row_of_parts denominator indices.now (map T.value numerators.now)) self.old.table) }
        ensures width { OnOk result (self.new.width ≡ wider self.old.width (width_for denominator)) }
        ensures unchanged { OnErr result (self.new ≡ self.old) }
        ensures sure { 0 < self.old.room_rows → length indices.now ≤ self.old.room_entries → denominator ≤ most_of self.old.width → IsOk result }
        ensures room_rows { OnOk result (self.new.room_rows ≡ self.old.room_rows - 1) }
        ensures room_entries { OnOk result (self.new.room_entries ≡ self.old.room_entries - length indices.now) }
    {
        reserve_row(&mut self.arrays, self.alloc, denominator, indices.len())?;
        push_parts(&mut self.arrays, denominator, indices, numerators);
        take_capacity(&mut self.room_rows, &mut self.room_entries, indices.len());
        Ok(())
    }

    /// Returns the table of the rows. The call takes no memory.
    pub fn finish(self) -> StencilTable
        ensures { result ≡ self.table }
    {
        StencilTable {
            arrays: self.arrays,
        }
    }
}
