//! The counts of the levels of a mesh.

ghost use Rattle.std.specs.Prelude.{◌≤◌};
ghost use Rattle.far_model.specs.Command.{Levels};
ghost use Rattle.ratio128.specs.StepsTaken.{StepsTaken};
ghost use Rattle.subdiv_model.specs.ObjMesh.{ObjMesh};
ghost use Rattle.mesh_answers.specs.Levels.{IsLevelWithin, AreCounted};
ghost use Rattle.mesh_answers.specs.Refusals.{refusal_of_mesh, IsFoundOr};
ghost use Rattle.mesh_answers.specs.Replies.{IsAnswerTo};
ghost use Rattle.mesh_answers.specs.StepCounts.{later_faces};

use crate::level::level_within;
use far_fault::{FarFault, Track, fault_of_walk};
use far_text::Reply;
use level_topology::Level;
use level_walk::{LevelCounts, WalkFault, count_levels};
use ratio128::Steps;
use raw_mesh::RawMesh;
use std::alloc::Global;
use std::sync::ledger::Ledger;

// The counts of the levels of a mesh, from its level 0. No level up to the depth has too many faces.
fn counts_from<L: Ledger>(
    alloc: Global,
    level: Level,
    depth: u32,
    steps: &mut Steps<L>,
) -> Result<Vec<LevelCounts>, FarFault>
    requires depth { depth ≤ 10 }
    requires level { (mesh : ObjMesh) × IsLevelWithin depth mesh level }
    ensures counted { (mesh : ObjMesh) → IsLevelWithin depth mesh level → IsFoundOr (λ counts. AreCounted mesh depth counts.items) (refusal_of_mesh (Levels depth) mesh) result }
    ensures steps { (mesh : ObjMesh) → IsLevelWithin depth mesh level → StepsTaken result steps.old steps.new 0 (later_faces depth mesh) }
{
    match count_levels(alloc, level, depth, steps) {
        Ok(counts) => Ok(counts),
        Err(fault) => Err(fault_of_walk(fault, Track::Positions)),
    }
}

/// Returns the counts of each level of a mesh, from level 0 to `depth`, which is at most 10. The call counts at most one step for each
/// face of these levels.
///
/// Errors, in this order; `Memory` may come at any time:
///
/// - `Mesh`: the first fault of a mesh that is not a manifold;
/// - `TooLarge`: the first count of the mesh that passes its limit;
/// - `TooLarge`: the first level, counted from 1, that would have more than 2^22 faces, and their number;
/// - `Overflow` of the kind `Chaikin`: the first level, counted from 1, at which the half of an edge overflows.
pub fn levels<L: Ledger>(
    alloc: Global,
    mesh: &RawMesh,
    depth: u32,
    steps: &mut Steps<L>,
) -> Result<Reply, FarFault>
    requires { depth ≤ 10 }
    ensures { IsAnswerTo (Levels depth) mesh.now result steps.old steps.new }
{
    let level = level_within(alloc, mesh, depth, steps)?;
    let counts = counts_from(alloc, level, depth, steps)?;
    Ok(Reply::Counts(counts))
}
