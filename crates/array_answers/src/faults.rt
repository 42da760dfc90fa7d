//! The faults of a mesh in arrays.

ghost use Rattle.std.specs.Prelude.{◌≡◌, MatchResult};
ghost use Rattle.array_answers.specs.Faults.{AreListed, AreFaultsOf};
ghost use Rattle.array_answers.specs.Refused.{AreNoMesh};
ghost use Rattle.array_answers.specs.ArrayRecords.{row};

use crate::record::FaultRecord;
use crate::refused::record_of_arrays;
use mesh_arrays::{ArraysFault, MeshArrays, mesh_of_arrays};
use mesh_check::{MeshFault, mesh_faults};
use raw_mesh::RawMesh;
use std::alloc::Global;

// The faults of a mesh, or the record of `Memory`.
fn listed(alloc: Global, mesh: &RawMesh) -> Result<Vec<MeshFault>, FaultRecord>
    ensures { MatchResult result (λ faults. AreListed mesh.now faults.items) (λ found. found ≡ row 11 0 0 0) }
{
    match mesh_faults(alloc, mesh) {
        Ok(faults) => Ok(faults),
        Err(_) => Err(record_of_arrays(&ArraysFault::Memory)),
    }
}

/// Returns all faults of the mesh of the arrays, in the order of [`mesh_faults`](mesh_check::mesh_faults). A manifold has none.
///
/// The record is that of the first fault of the arrays, or of `Memory`.
pub fn faults_of_arrays(alloc: Global, arrays: &MeshArrays) -> Result<Vec<MeshFault>, FaultRecord>
    ensures { MatchResult result (λ faults. AreFaultsOf arrays.now faults.items) (AreNoMesh arrays.now) }
{
    let mesh = match mesh_of_arrays(alloc, arrays) {
        Ok(mesh) => mesh,
        Err(fault) => return Err(record_of_arrays(&fault)),
    };
    listed(alloc, &mesh)
}
