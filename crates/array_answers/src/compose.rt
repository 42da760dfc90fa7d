//! The level of a mesh in arrays at a depth, with the table of its points.

ghost use Rattle.std.specs.Prelude.{◌≡◌, ◌<◌, ◌≤◌, ℕ};
ghost use Rattle.array_answers.specs.Composed.{IsRefinement};

use crate::record::FaultRecord;
use crate::record_table::record_of;
use crate::refused::{bad_depth, record_of_arrays};
use channel_refine::ComposedChannel;
use mesh_answers::compose;
use mesh_arrays::{MeshArrays, mesh_of_arrays};
use ratio128::Steps;
use raw_mesh::RawMesh;
use std::alloc::Global;
use std::marker::Brand;
use std::sync::ledger::{Blank, Ledger};

/// A mesh, and its level at a depth with the table of its points over the points of the mesh.
#[derive(Drop)]
pub struct RefinedArrays {
    /// The mesh.
    pub mesh: RawMesh,
    /// Its level with the table.
    pub composed: ComposedChannel,
}

// The level of a mesh in arrays, with a new counter of steps.
fn refine_counted<L: Ledger>(
    alloc: Global,
    blank: Blank,
    arrays: &MeshArrays,
    depth: u32,
) -> Result<RefinedArrays, FaultRecord>
    requires name { blank.name ≡ L.name }
    requires parts { blank.parts ≡ L.parts }
    requires some { 0 < blank.parts }
    requires depth { depth ≤ 10 }
    ensures { IsRefinement arrays.now depth result }
{
    let mesh = match mesh_of_arrays(alloc, arrays) {
        Ok(mesh) => mesh,
        Err(fault) => return Err(record_of_arrays(&fault)),
    };
    let mut steps = Steps::start(blank.open::<L>());
    match compose(alloc, &mesh, depth, &mut steps) {
        Ok(composed) => Ok(RefinedArrays { mesh, composed }),
        Err(fault) => Err(record_of(&fault)),
    }
}

/// Returns the mesh of the arrays, its level at `depth`, at most 10, and the table of the level's points over those of the mesh.
///
/// The record is that of the first fault: `BAD_ARGUMENT` for a depth above 10; a fault of the arrays; a fault of the command `stencils`,
/// in its order. `Memory` may come at any time.
pub fn refine_arrays(
    alloc: Global,
    arrays: &MeshArrays,
    depth: u32,
) -> Result<RefinedArrays, FaultRecord>
    ensures { IsRefinement arrays.now depth result }
{
    if depth > 10 {
        return Err(bad_depth());
    }
    refine_counted::<Brand>(alloc, Blank::new(1), arrays, depth)
}
