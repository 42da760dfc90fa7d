//! A table of stencils, row by row.

ghost use Rattle.std.specs.Prelude.{◌≡◌, ◌^◌, ◌<◌, ◌≤◌, length, map, get_or};
ghost use Rattle.number_width.specs.Numbers.{numbers_in};
ghost use Rattle.stencil_apply.specs.Table.{IsTable, row_at, entries_of, greatest_of};

use crate::arrays::{Arrays, number_part, part};
use number_width::NumberSlice;
use std::marker::Model;

/// A table of stencils. Each row has a denominator from 1 to 2^126 - 1, and numerators above 0 that sum to it. A row has each
/// of its control points once, ascending. There are at most 2^27 control points, 2^27 rows and 2^27 entries in all. Rows,
/// entries and control points are counted from 0.
#[derive(Drop)]
pub struct StencilTable {
    pub(crate) arrays: Arrays,
}

impl Model for StencilTable {
    ghost use Rattle.stencil_apply.specs.Table.{Table};
    ghost use Rattle.stencil_apply.specs.Arrays.{table_of, AreTied};

    ghost Value = { Table };

    ghost view = { λ t. table_of t.arrays };

    ghost invariant = { λ t. AreTied t.arrays };
}

impl StencilTable {
    /// States the facts of every table to a proof; at run time it does nothing.
    pub fn facts(&self)
        ensures { IsTable self.now }
    {
        let _ = &self.arrays;
    }

    /// Returns the number of control points.
    pub fn controls(&self) -> u32
        ensures { result ≡ self.now.controls }
    {
        self.arrays.controls
    }

    /// Returns the number of rows.
    pub fn rows(&self) -> u32
        ensures { result ≡ length self.now.rows }
    {
        self.arrays.ends.len() as u32
    }

    /// Returns the number of entries of all rows together.
    pub fn entries(&self) -> u64
        ensures { result ≡ entries_of self.now.rows }
    {
        self.arrays.indices.len() as u64
    }

    /// Returns the number of entries of a row.
    pub fn row_len(&self, row: u32) -> u32
        requires { row < length self.now.rows }
        ensures { result ≡ length (row_at self.now row).shares }
    {
        self.row_indices(row).len() as u32
    }

    /// Returns the control point of an entry of a row.
    pub fn index(&self, row: u32, at: u32) -> u32
        requires row { row < length self.now.rows }
        requires at { at < length (row_at self.now row).shares }
        ensures { result ≡ (get_or (row_at self.now row).shares at (0, 0)).0 }
    {
        self.row_indices(row)[at as usize]
    }

    /// Returns the numerator of an entry of a row.
    pub fn numerator(&self, row: u32, at: u32) -> u128
        requires row { row < length self.now.rows }
        requires at { at < length (row_at self.now row).shares }
        ensures { result ≡ (get_or (row_at self.now row).shares at (0, 0)).1 }
    {
        self.row_numerators(row).get(at as usize)
    }

    /// Returns the denominator of a row.
    pub fn denominator(&self, row: u32) -> u128
        requires { row < length self.now.rows }
        ensures { result ≡ (row_at self.now row).den }
    {
        self.arrays.denominators[row as usize]
    }

    /// Returns the greatest denominator, or 1 for a table without rows.
    pub fn greatest(&self) -> u128
        ensures { result ≡ greatest_of self.now }
    {
        self.arrays.greatest
    }

    /// Returns the denominators of all rows, in their order.
    pub fn denominators(&self) -> &[u128]
        ensures { result.now ≡ map (λ row. row.den) self.now.rows }
    {
        &self.arrays.denominators
    }

    /// Returns the control points of a row, ascending.
    pub fn row_indices(&self, row: u32) -> &[u32]
        requires { row < length self.now.rows }
        ensures indices { result.now ≡ map (λ share. share.0) (row_at self.now row).shares }
        ensures few { length result.now ≤ 2 ^ 27 }
    {
        part(&self.arrays.ends, &self.arrays.indices, row)
    }

    /// Returns the numerators of a row, in the order of its control points.
    pub fn row_numerators(&self, row: u32) -> NumberSlice<'_>
        requires { row < length self.now.rows }
        ensures { numbers_in result ≡ map (λ share. share.1) (row_at self.now row).shares }
    {
        number_part(&self.arrays.ends, &self.arrays.numerators, row)
    }
}
