//! Tables of rows of a mesh.

ghost use Rattle.std.specs.Prelude.{◌≡◌};
ghost use Rattle.flat_arrays.specs.Places.{IsSameArray};
ghost use Rattle.table_arrays.specs.Places as table;
ghost use Rattle.far_c.specs.Answers.{AnswersTable};
ghost use Rattle.far_c.specs.Status.{IsKeptUnlessRefused, IsKeptIfRefused};

use crate::status::written;
use array_answers::{FaultRecord, RowRequest, rows_of_arrays};
use mesh_arrays::MeshArrays;
use std::alloc::Global;
use table_arrays::{
    DoublePlaces, ExactPlaces, FloatPlaces, TableCounts, counts_of, put_double_table,
    put_exact_table, put_float_table,
};

/// Writes the table of the requested rows of a mesh, and its counts. Each row has a start and a denominator, each entry a control point
/// and an exact numerator. If an array is too short, it writes only the counts. Places behind the items keep their
/// contents.
#[unsafe(no_mangle)]
pub extern "C" fn far_table_exact(
    alloc: Global,
    mesh: &MeshArrays,
    request: &RowRequest,
    counts: &mut TableCounts,
    places: &mut ExactPlaces,
    fault: &mut FaultRecord,
) -> u32
    ensures answer { AnswersTable table.are_exact_long_enough table.IsExactWritten mesh.now request.now result counts.new places.old places.new fault.new }
    ensures rest { table.IsExactRestKept counts.new places.old places.new }
    ensures starts { IsSameArray places.old.starts places.new.starts }
    ensures indices { IsSameArray places.old.indices places.new.indices }
    ensures numerators { IsSameArray places.old.numerators places.new.numerators }
    ensures denominators { IsSameArray places.old.denominators places.new.denominators }
    ensures stays { IsKeptIfRefused result counts.old counts.new × IsKeptUnlessRefused result fault.old fault.new }
{
    match rows_of_arrays(alloc, mesh, request) {
        Ok(rows) => {
            *counts = counts_of(&rows);
            let done = put_exact_table(&rows, places);
            // The prover proves a named drop once for each type.
            drop(rows);
            written(done)
        }
        Err(found) => {
            *fault = found;
            found.status
        }
    }
}

/// Writes the table of the requested rows of a mesh, and its counts. Each row has a start, each entry a control point and the nearest
/// double of its weight. If an array is too short, it writes only the counts. Places behind the items keep their
/// contents.
#[unsafe(no_mangle)]
pub extern "C" fn far_table_doubles(
    alloc: Global,
    mesh: &MeshArrays,
    request: &RowRequest,
    counts: &mut TableCounts,
    places: &mut DoublePlaces,
    fault: &mut FaultRecord,
) -> u32
    ensures answer { AnswersTable table.are_doubles_long_enough table.AreDoublesWritten mesh.now request.now result counts.new places.old places.new fault.new }
    ensures rest { table.IsDoubleRestKept counts.new places.old places.new }
    ensures starts { IsSameArray places.old.starts places.new.starts }
    ensures indices { IsSameArray places.old.indices places.new.indices }
    ensures weights { IsSameArray places.old.weights places.new.weights }
    ensures stays { IsKeptIfRefused result counts.old counts.new × IsKeptUnlessRefused result fault.old fault.new }
{
    match rows_of_arrays(alloc, mesh, request) {
        Ok(rows) => {
            *counts = counts_of(&rows);
            let done = put_double_table(&rows, places);
            // The prover proves a named drop once for each type.
            drop(rows);
            written(done)
        }
        Err(found) => {
            *fault = found;
            found.status
        }
    }
}

/// Writes the table of the requested rows of a mesh, and its counts. Each row has a start, each entry a control point and the nearest
/// float of its weight. If an array is too short, it writes only the counts. Places behind the items keep their
/// contents.
#[unsafe(no_mangle)]
pub extern "C" fn far_table_floats(
    alloc: Global,
    mesh: &MeshArrays,
    request: &RowRequest,
    counts: &mut TableCounts,
    places: &mut FloatPlaces,
    fault: &mut FaultRecord,
) -> u32
    ensures answer { AnswersTable table.are_floats_long_enough table.AreFloatsWritten mesh.now request.now result counts.new places.old places.new fault.new }
    ensures rest { table.IsFloatRestKept counts.new places.old places.new }
    ensures starts { IsSameArray places.old.starts places.new.starts }
    ensures indices { IsSameArray places.old.indices places.new.indices }
    ensures weights { IsSameArray places.old.weights places.new.weights }
    ensures stays { IsKeptIfRefused result counts.old counts.new × IsKeptUnlessRefused result fault.old fault.new }
{
    match rows_of_arrays(alloc, mesh, request) {
        Ok(rows) => {
            *counts = counts_of(&rows);
            let done = put_float_table(&rows, places);
            // The prover proves a named drop once for each type.
            drop(rows);
            written(done)
        }
        Err(found) => {
            *fault = found;
            found.status
        }
    }
}
