//! The sparse levels of a mesh.

ghost use Rattle.std.specs.Prelude.{◌≡◌};
ghost use Rattle.mesh_arrays.specs.SparsePlaces.{AreSamePlaces};
ghost use Rattle.far_c.specs.Sparse.{AnswersSparse};
ghost use Rattle.far_c.specs.Status.{IsKeptUnlessRefused, IsKeptIfRefused};

use crate::status::written;
use array_answers::{FaultRecord, SparseRequest, sparse_of_arrays};
use mesh_arrays::{MeshArrays, SparseCounts, SparsePlaces, put_sparse, sparse_counts_of};
use std::alloc::Global;

/// Writes the requested sparse levels of a mesh with their points, and the counts of all levels. The denominator of a point is that of its
/// row in the table of the whole level, times the common one of the mesh. If an array is too short, it writes only the counts.
#[unsafe(no_mangle)]
pub extern "C" fn far_sparse(
    alloc: Global,
    mesh: &MeshArrays,
    request: &SparseRequest,
    counts: &mut SparseCounts,
    places: &mut SparsePlaces,
    fault: &mut FaultRecord,
) -> u32
    ensures answer { AnswersSparse mesh.now request.now result counts.new places.old places.new fault.new }
    ensures places { AreSamePlaces places.old places.new }
    ensures stays { IsKeptIfRefused result counts.old counts.new × IsKeptUnlessRefused result fault.old fault.new }
{
    match sparse_of_arrays(alloc, mesh, request) {
        Ok(sparse) => {
            *counts = sparse_counts_of(&sparse.levels);
            let done = put_sparse(&sparse.levels, sparse.common, places);
            // The prover proves a named drop once for each type.
            drop(sparse);
            written(done)
        }
        Err(found) => {
            *fault = found;
            found.status
        }
    }
}
