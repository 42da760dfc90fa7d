//! The points of a mesh in arrays at a depth.

ghost use Rattle.std.specs.Prelude.{◌≡◌, ◌<◌, ◌≤◌, ℕ};
ghost use Rattle.array_answers.specs.Composed.{ArePointsFound};

use crate::record::FaultRecord;
use crate::record_table::record_of;
use crate::refused::{bad_depth, record_of_arrays};
use channel_refine::evaluate;
use far_fault::FarFault;
use mesh_answers::compose;
use mesh_arrays::{MeshArrays, mesh_of_arrays};
use ratio128::{Point3, Steps, Valued};
use std::alloc::Global;
use std::marker::Brand;
use std::sync::ledger::{Blank, Ledger};

/// The points of a level. The numerators of a point are over its own denominator times the common one. Its own denominator is that of its
/// row in the table of the level.
#[derive(Drop)]
pub struct RefinedPoints {
    /// The common denominator of the mesh.
    pub common: u128,
    /// The points of the level.
    pub points: Vec<Valued<Point3>>,
}

// The points of a mesh in arrays, with a new counter of steps.
fn points_counted<L: Ledger>(
    alloc: Global,
    blank: Blank,
    arrays: &MeshArrays,
    depth: u32,
) -> Result<RefinedPoints, FaultRecord>
    requires name { blank.name ≡ L.name }
    requires parts { blank.parts ≡ L.parts }
    requires some { 0 < blank.parts }
    requires depth { depth ≤ 10 }
    ensures { ArePointsFound arrays.now depth result }
{
    let mesh = match mesh_of_arrays(alloc, arrays) {
        Ok(mesh) => mesh,
        Err(fault) => return Err(record_of_arrays(&fault)),
    };
    let mut steps = Steps::start(blank.open::<L>());
    let composed = match compose(alloc, &mesh, depth, &mut steps) {
        Ok(composed) => composed,
        Err(fault) => return Err(record_of(&fault)),
    };
    mesh.facts();
    composed.table.facts();
    match evaluate(alloc, &composed.table, mesh.points(), &mut steps) {
        Ok(points) => Ok(RefinedPoints {
            common: mesh.scale(),
            points,
        }),
        Err(_) => Err(record_of(&FarFault::Memory)),
    }
}

/// Returns the points of the level of a mesh in arrays at `depth`, at most 10, in the order of the level.
///
/// The record is that of the first fault: `BAD_ARGUMENT` for a depth above 10; a fault of the arrays; a fault of the command `stencils`,
/// in its order. `Memory` may come at any time.
pub fn refine_points(
    alloc: Global,
    arrays: &MeshArrays,
    depth: u32,
) -> Result<RefinedPoints, FaultRecord>
    ensures { ArePointsFound arrays.now depth result }
{
    if depth > 10 {
        return Err(bad_depth());
    }
    points_counted::<Brand>(alloc, Blank::new(1), arrays, depth)
}
