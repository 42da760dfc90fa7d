//! The parts of level 0 on which the points, edges and faces of a level lie.

ghost use Rattle.std.specs.Prelude.{◌≤◌};
ghost use Rattle.ratio128.specs.StepsTaken.{StepsTaken};
ghost use Rattle.subdiv_model.specs.ObjMesh.{ObjMesh};
ghost use Rattle.mesh_answers.specs.Levels.{IsLevelWithin};
ghost use Rattle.mesh_answers.specs.Origins.{AreOriginsFound};
ghost use Rattle.mesh_answers.specs.StepCounts.{later_faces, level_faces_to};

use crate::level::level_within;
use far_fault::{FarFault, Track, fault_of_walk};
use level_topology::Level;
use level_walk::{Origins, find_origins};
use ratio128::Steps;
use raw_mesh::RawMesh;
use std::alloc::Global;
use std::sync::ledger::Ledger;

// The origins of a level of a mesh, from its level 0. No level up to the depth has too many faces.
fn origins_from<L: Ledger>(
    alloc: Global,
    level: Level,
    depth: u32,
    steps: &mut Steps<L>,
) -> Result<Origins, FarFault>
    requires depth { depth ≤ 10 }
    requires level { (mesh : ObjMesh) × IsLevelWithin depth mesh level }
    ensures found { (mesh : ObjMesh) → IsLevelWithin depth mesh level → AreOriginsFound mesh depth result }
    ensures steps { (mesh : ObjMesh) → IsLevelWithin depth mesh level → StepsTaken result steps.old steps.new 0 (later_faces depth mesh) }
{
    match find_origins(alloc, level, depth, steps) {
        Ok(origins) => Ok(origins),
        Err(fault) => Err(fault_of_walk(fault, Track::Positions)),
    }
}

/// Returns, for each point, edge and face of a mesh's level at `depth`, the part of level 0 on which it lies. `depth` is at most 10. The
/// call counts at most one step for each face of the levels from 0 to `depth`.
///
/// [`levels`] lists the errors.
pub fn origins<L: Ledger>(
    alloc: Global,
    mesh: &RawMesh,
    depth: u32,
    steps: &mut Steps<L>,
) -> Result<Origins, FarFault>
    requires { depth ≤ 10 }
    ensures found { AreOriginsFound mesh.now depth result }
    ensures steps { StepsTaken result steps.old steps.new 0 (level_faces_to depth mesh.now) }
{
    let level = level_within(alloc, mesh, depth, steps)?;
    origins_from(alloc, level, depth, steps)
}
