//! One point of a refined mesh: an example of a crate that calls the library.
#![tactic(auto)]

ghost use Rattle.std.specs.Prelude.{MatchOption, MatchResult};
ghost use Rattle.far_model.specs.Answer.{table_faults};
ghost use Rattle.array_answers.specs.Refused.{IsRefusal};
ghost use Rattle.mesh_arrays.specs.Arrays.{mesh_of_arrays as defined_mesh};
ghost use Rattle.refined_point.specs.Point.{IsPointAt, EndBefore};

use array_answers::{FaultRecord, refine_points};
use mesh_arrays::MeshArrays;
use ratio128::{Point3, Valued};
use std::alloc::Global;

/// Returns point `number`, counted from 0, of the level of a mesh at a depth of at most 10. It is `None` where the level has fewer points.
///
/// Its coordinates are numerators over its denominator times the common denominator of the mesh. The error is that of `refine_points`.
pub fn refined_point(
    alloc: Global,
    mesh: &MeshArrays,
    depth: u32,
    number: usize,
) -> Result<Option<Valued<Point3>>, FaultRecord>
    ensures { MatchResult result
        (λ found. MatchOption found (EndBefore mesh.now depth number) (IsPointAt mesh.now depth number))
        (IsRefusal depth (table_faults depth (defined_mesh mesh.now)) mesh.now) }
{
    let refined = refine_points(alloc, mesh, depth)?;
    if number < refined.points.len() {
        Ok(Some(refined.points[number]))
    } else {
        Ok(None)
    }
}
