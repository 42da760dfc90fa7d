//! The comparison of a stored table with the table of a mesh in arrays.

ghost use Rattle.std.specs.Prelude.{◌≡◌, length, nat_eq};
ghost use Rattle.table_arrays.specs.Checked.{IsChecked, IsCompared, IsOwnTable, IsTextChecked, IsWholeTable};

use crate::read::read_stored;
use array_answers::{FaultRecord, record_of, refine_arrays};
use far_fault::{FarFault, TableCause};
use mesh_arrays::MeshArrays;
use std::alloc::Global;
use stencil_apply::StencilTable;
use table_file::{ReadTable, first_difference};

// Returns the table of a mesh in arrays at a depth.
fn own_table(alloc: Global, arrays: &MeshArrays, depth: u32) -> Result<StencilTable, FaultRecord>
    ensures { IsOwnTable arrays.now depth result }
{
    let refined = refine_arrays(alloc, arrays, depth)?;
    // The prover proves a named drop once for each type.
    drop(refined.mesh);
    drop(refined.composed.level);
    Ok(refined.composed.table)
}

// Returns whether the text of a table ends with the bytes.
fn is_whole(read: &ReadTable, text: &[u8]) -> bool
    ensures { result ≡ nat_eq read.now.end (length text.now) }
{
    read.end() == text.len()
}

// Returns the table whose text these bytes are.
fn whole_table(alloc: Global, text: &[u8]) -> Result<StencilTable, FaultRecord>
    ensures { IsWholeTable text.now result }
{
    let read = read_stored(alloc, text)?;
    let whole = is_whole(&read, text);
    let table = read.into_table();
    if whole {
        return Ok(table);
    }
    table.facts();
    let line = table.rows() + 2;
    // The prover proves a named drop once for each type.
    drop(table);
    Err(record_of(&FarFault::Table {
        line,
        cause: TableCause::Form,
    }))
}

// Returns the number of rows of a table that equals the mesh's own, or the fault.
fn compare(stored: &StencilTable, own: &StencilTable) -> Result<u32, FaultRecord>
    ensures { IsCompared stored.now own.now result }
{
    match first_difference(stored, own) {
        None => Ok(own.rows()),
        Some(row) => Err(record_of(&FarFault::Differs { row })),
    }
}

// Returns the number of rows of the table whose text these bytes are, or the fault.
fn check_text(alloc: Global, own: &StencilTable, text: &[u8]) -> Result<u32, FaultRecord>
    ensures { IsTextChecked own.now text.now result }
{
    let stored = whole_table(alloc, text)?;
    compare(&stored, own)
}

/// Checks that `text` is exactly the text of the table of a mesh in arrays at `depth`, at most 10. Returns the number of rows of that
/// table.
///
/// The record is that of the first fault; `Memory` may come at any time:
///
/// - `BAD_ARGUMENT` for a depth above 10;
/// - the first fault of the arrays;
/// - the first fault of the command `stencils`;
/// - `Long`: the text has more than 2^28 bytes;
/// - `Table`: the first bad line of the text, counted from 1, and its cause;
/// - `Table` with `Form`: the line behind the table, if bytes follow its text;
/// - `Differs`: the first row, counted from 0, that differs from the mesh's own or is missing in one table. It is 0 if the numbers of
///   control points differ.
pub fn check_stored(
    alloc: Global,
    arrays: &MeshArrays,
    depth: u32,
    text: &[u8],
) -> Result<u32, FaultRecord>
    ensures { IsChecked arrays.now depth text.now result }
{
    let own = own_table(alloc, arrays, depth)?;
    check_text(alloc, &own, text)
}
