//! Stored tables.

ghost use Rattle.std.specs.Prelude.{◌≡◌, length};
ghost use Rattle.flat_arrays.specs.Places.{IsSameArray};
ghost use Rattle.table_arrays.specs.Places.{IsExactRestKept};
ghost use Rattle.far_c.specs.Stored.{AnswersCheck, AnswersRead, AnswersWrite};
ghost use Rattle.far_c.specs.Status.{IsKeptUnlessRefused, IsKeptIfRefused};

use crate::status;
use array_answers::{DONE, FaultRecord};
use mesh_arrays::MeshArrays;
use std::alloc::Global;
use table_arrays::{
    ExactPlaces, ExactRows, TableCounts, check_stored, counts_of, put_exact_table, read_stored,
    table_of_rows, write_stored,
};

/// Writes the table whose text these bytes begin with, its counts, and the length of its text in bytes. If an array is too short, it
/// writes only the counts and the length. Places behind the items keep their contents.
#[unsafe(no_mangle)]
pub extern "C" fn far_table_read(
    alloc: Global,
    text: &[u8],
    counts: &mut TableCounts,
    places: &mut ExactPlaces,
    end: &mut u64,
    fault: &mut FaultRecord,
) -> u32
    ensures answer { AnswersRead text.now result counts.new end.new places.old places.new fault.new }
    ensures rest { IsExactRestKept counts.new places.old places.new }
    ensures starts { IsSameArray places.old.starts places.new.starts }
    ensures indices { IsSameArray places.old.indices places.new.indices }
    ensures numerators { IsSameArray places.old.numerators places.new.numerators }
    ensures denominators { IsSameArray places.old.denominators places.new.denominators }
    ensures stays { IsKeptIfRefused result counts.old counts.new × IsKeptIfRefused result end.old end.new × IsKeptUnlessRefused result fault.old fault.new }
{
    match read_stored(alloc, text) {
        Ok(read) => {
            *counts = counts_of(read.table());
            *end = read.end() as u64;
            let done = put_exact_table(read.table(), places);
            // The prover proves a named drop once for each type.
            drop(read);
            status::written(done)
        }
        Err(found) => {
            *fault = found;
            found.status
        }
    }
}

/// Writes the text of the table of the rows, and the length of the whole text in bytes. If it does not fit, `out` gets its beginning and
/// the status is 1. Bytes behind the text stay.
#[unsafe(no_mangle)]
pub extern "C" fn far_table_write(
    alloc: Global,
    rows: &ExactRows,
    written: &mut u64,
    out: &mut [u8],
    fault: &mut FaultRecord,
) -> u32
    ensures answer { AnswersWrite rows.now result written.new out.old out.new fault.new }
    ensures len { length out.new ≡ length out.old }
    ensures stays { IsKeptIfRefused result written.old written.new × IsKeptUnlessRefused result fault.old fault.new }
{
    match table_of_rows(alloc, rows) {
        Ok(table) => {
            *written = write_stored(&table, out);
            // The prover proves a named drop once for each type.
            drop(table);
            status::written(*written <= out.len() as u64)
        }
        Err(found) => {
            *fault = found;
            found.status
        }
    }
}

/// Checks that the bytes are exactly the text of the table of a mesh at `depth`, at most 10. The fault names the first line or row that
/// is not.
#[unsafe(no_mangle)]
pub extern "C" fn far_table_check(
    alloc: Global,
    mesh: &MeshArrays,
    depth: u32,
    text: &[u8],
    fault: &mut FaultRecord,
) -> u32
    ensures answer { AnswersCheck mesh.now depth text.now result fault.new }
    ensures stays { IsKeptUnlessRefused result fault.old fault.new }
{
    match check_stored(alloc, mesh, depth, text) {
        Ok(_) => DONE,
        Err(found) => {
            *fault = found;
            found.status
        }
    }
}
