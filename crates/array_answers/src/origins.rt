//! The origins of the level of a mesh in arrays at a depth.

ghost use Rattle.std.specs.Prelude.{◌≡◌, ◌<◌, ◌≤◌};
ghost use Rattle.array_answers.specs.Origins.{AreArrayOrigins};

use crate::record::FaultRecord;
use crate::record_table::record_of;
use crate::refused::{bad_depth, record_of_arrays};
use level_walk::Origins;
use mesh_answers::origins;
use mesh_arrays::{MeshArrays, mesh_of_arrays};
use ratio128::Steps;
use std::alloc::Global;
use std::marker::Brand;
use std::sync::ledger::{Blank, Ledger};

// The origins of a level of a mesh in arrays, with a new counter of steps.
fn origins_counted<L: Ledger>(
    alloc: Global,
    blank: Blank,
    arrays: &MeshArrays,
    depth: u32,
) -> Result<Origins, FaultRecord>
    requires name { blank.name ≡ L.name }
    requires parts { blank.parts ≡ L.parts }
    requires some { 0 < blank.parts }
    requires depth { depth ≤ 10 }
    ensures { AreArrayOrigins arrays.now depth result }
{
    let mesh = match mesh_of_arrays(alloc, arrays) {
        Ok(mesh) => mesh,
        Err(fault) => return Err(record_of_arrays(&fault)),
    };
    let mut steps = Steps::start(blank.open::<L>());
    match origins(alloc, &mesh, depth, &mut steps) {
        Ok(found) => Ok(found),
        Err(fault) => Err(record_of(&fault)),
    }
}

/// Returns, for each point, edge and face of the level at `depth`, the part of the arrays' mesh on which it lies. `depth` is at most 10.
///
/// The record is that of the first fault: `BAD_ARGUMENT` for a depth above 10; a fault of the arrays; a fault of the command `levels`, in
/// its order. `Memory` may come at any time.
pub fn origins_of_arrays(
    alloc: Global,
    arrays: &MeshArrays,
    depth: u32,
) -> Result<Origins, FaultRecord>
    ensures { AreArrayOrigins arrays.now depth result }
{
    if depth > 10 {
        return Err(bad_depth());
    }
    origins_counted::<Brand>(alloc, Blank::new(1), arrays, depth)
}
