//! The table of rows in a caller's arrays.

ghost use Rattle.std.specs.Prelude.{◌≡◌, ◌<◌, true, length, IfOk, MatchResult};
ghost use Rattle.array_answers.specs.ArrayRecords.{row};
ghost use Rattle.table_arrays.specs.Built.{AreAdded, AreFirstRows, IsAdded, IsRowsFault};
ghost use Rattle.table_arrays.specs.Rows.{IsTableOf, IsTableOfRows, is_in_shape};

use crate::entries::read_row;
use crate::exact_rows::{ExactRows, are_in_shape, denominator_of};
use array_answers::{BAD_ARRAYS, FaultRecord, record_of};
use far_fault::FarFault;
use number_width::Width;
use ratio128::Memory;
use std::alloc::Global;
use stencil_apply::{Entry, StencilTable, TableBuilder};

// The rows added so far, and a buffer for the entries of one row.
#[derive(Drop)]
struct Added {
    builder: TableBuilder,
    entries: Vec<Entry>,
}

// Returns no rows, with capacity for those of the arrays.
fn no_rows(alloc: Global, rows: &ExactRows) -> Result<Added, Memory>
    requires { is_in_shape rows.now ≡ true }
    ensures { IfOk result (λ added. AreFirstRows rows.now 0 added.builder.table) }
{
    let builder = TableBuilder::with_room(
        alloc,
        rows.controls,
        rows.denominators.len() as u32,
        rows.indices.len() as u64,
        Width::Narrow,
    )?;
    Ok(Added {
        builder,
        entries: Vec::new(alloc),
    })
}

// Adds a row, and returns whether it is valid.
fn add_row(rows: &ExactRows, r: usize, added: &mut Added) -> Result<bool, Memory>
    requires shape { is_in_shape rows.now ≡ true }
    requires inside { r < length rows.now.denominators.now }
    requires before { AreFirstRows rows.now r added.old.builder.table }
    ensures { IfOk result (λ good. IsAdded rows.now r added.new.builder.table good) }
{
    if !read_row(rows, r, &mut added.entries)? {
        return Ok(false);
    }
    added
        .builder
        .add_row(denominator_of(rows, r), &added.entries)?;
    Ok(true)
}

// Adds all rows, and returns the first invalid one.
fn add_rows(rows: &ExactRows, added: &mut Added) -> Result<Option<usize>, Memory>
    requires shape { is_in_shape rows.now ≡ true }
    requires none { AreFirstRows rows.now 0 added.old.builder.table }
    ensures { IfOk result (λ bad. AreAdded rows.now added.new.builder.table bad) }
{
    for r in 0..rows.denominators.len() {
        if !add_row(rows, r, added)? {
            return Ok(Some(r));
        }
    }
    Ok(None)
}

// Returns a record of invalid arrays.
fn bad_arrays(first: u64, second: u64) -> FaultRecord
    ensures { result ≡ row 17 17 first second }
{
    FaultRecord {
        status: BAD_ARRAYS,
        kind: 17,
        first,
        second,
    }
}

// The fault that keeps the arrays from a table.
enum RowsFault {
    // The row is invalid.
    Row(usize),
    Memory,
}

impl From<Memory> for RowsFault {
    ghost use Rattle.table_arrays.specs.declared.table.RowsFault.TheVariants as fault;

    ghost from_gives = { λ _ e. e ≡ fault.Memory };

    fn from(_: Memory) -> RowsFault {
        RowsFault::Memory
    }
}

// Returns the table of arrays whose lengths fit.
fn table_in_shape(alloc: Global, rows: &ExactRows) -> Result<StencilTable, RowsFault>
    requires { is_in_shape rows.now ≡ true }
    ensures { MatchResult result (IsTableOf rows.now) (IsRowsFault rows.now) }
{
    let mut added = no_rows(alloc, rows)?;
    match add_rows(rows, &mut added)? {
        Some(r) => Err(RowsFault::Row(r)),
        None => Ok(added.builder.finish()),
    }
}

/// Returns the table of the rows in the arrays. The work grows with the number of rows and entries only.
///
/// There are at most 2^27 control points, rows and entries. `numerators` is as long as `indices`, and `starts` has one place more than
/// there are denominators. Row `r` has the entries from `starts[r]` up to `starts[r + 1]`. Its control points are below `controls` and
/// ascend without repetition. Its numerators are above 0 and sum to its denominator, which is from 1 to 2^126 - 1.
///
/// The record has the status `BAD_ARRAYS` and the kind 17. Its numbers are 0 and 1 if the lengths do not fit or pass a limit. Else they
/// are the first invalid row, counted from 0, and 0. `Memory` may come at any time.
pub fn table_of_rows(alloc: Global, rows: &ExactRows) -> Result<StencilTable, FaultRecord>
    ensures { IsTableOfRows rows.now result }
{
    if !are_in_shape(rows) {
        return Err(bad_arrays(0, 1));
    }
    match table_in_shape(alloc, rows) {
        Ok(table) => Ok(table),
        Err(RowsFault::Row(r)) => Err(bad_arrays(r as u64, 0)),
        Err(RowsFault::Memory) => Err(record_of(&FarFault::Memory)),
    }
}
