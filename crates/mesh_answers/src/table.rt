//! The table of a mesh at a depth.

ghost use Rattle.std.specs.Prelude.{◌≤◌};
ghost use Rattle.far_model.specs.Command.{Stencils};
ghost use Rattle.ratio128.specs.StepsTaken.{StepsTaken};
ghost use Rattle.mesh_answers.specs.Levels.{IsLevelWithin};
ghost use Rattle.mesh_answers.specs.Replies.{IsAnswerTo};
ghost use Rattle.mesh_answers.specs.StepCounts.{later_faces, level_faces_to};
ghost use Rattle.mesh_answers.specs.Tables.{IsComposition};

use crate::level::level_within;
use crate::tracks::position_channel;
use channel_refine::{ComposedChannel, compose_channel};
use far_fault::{FarFault, Track, fault_of_walk};
use far_text::Reply;
use level_topology::Level;
use ratio128::Steps;
use raw_mesh::RawMesh;
use std::alloc::Global;
use std::sync::ledger::Ledger;

// The table of the positions of a mesh at a depth, from its level 0.
fn compose_from<L: Ledger>(
    alloc: Global,
    mesh: &RawMesh,
    level: Level,
    depth: u32,
    steps: &mut Steps<L>,
) -> Result<ComposedChannel, FarFault>
    requires depth { depth ≤ 10 }
    requires level { IsLevelWithin depth mesh.now level }
    ensures composed { IsComposition mesh.now depth result }
    ensures steps { StepsTaken result steps.old steps.new 0 (later_faces depth mesh.now) }
{
    match compose_channel(alloc, position_channel(mesh, level), depth, steps) {
        Ok(composed) => {
            composed.table.facts();
            Ok(composed)
        }
        Err(fault) => Err(fault_of_walk(fault, Track::Positions)),
    }
}

/// Returns the level of a mesh at `depth`, at most 10, with the table of its points over the control points. The call counts at most one
/// step for each face of the levels from 0 to `depth`.
///
/// [`stencils`] lists the errors.
pub fn compose<L: Ledger>(
    alloc: Global,
    mesh: &RawMesh,
    depth: u32,
    steps: &mut Steps<L>,
) -> Result<ComposedChannel, FarFault>
    requires { depth ≤ 10 }
    ensures composed { IsComposition mesh.now depth result }
    ensures steps { StepsTaken result steps.old steps.new 0 (level_faces_to depth mesh.now) }
{
    let level = level_within(alloc, mesh, depth, steps)?;
    compose_from(alloc, mesh, level, depth, steps)
}

/// Returns the table of the points of a mesh at `depth`, at most 10, over its control points. The call counts at most one step for each
/// face of the levels from 0 to `depth`.
///
/// Errors, in this order; `Memory` may come at any time:
///
/// - `Mesh`: the first fault of a mesh that is not a manifold;
/// - `TooLarge`: the first count of the mesh that passes its limit;
/// - `TooLarge`: the first level, counted from 1, that would have more than 2^22 faces, and their number;
/// - `Overflow` or `TooLarge`: the first level, counted from 1, at which a number or a count of the positions passes its bound.
///
/// Within a level the order is `Chaikin`, `Transition`, `Denominator`, a table of more than 2^27 entries (`TooLarge`), `Value`.
pub fn stencils<L: Ledger>(
    alloc: Global,
    mesh: &RawMesh,
    depth: u32,
    steps: &mut Steps<L>,
) -> Result<Reply, FarFault>
    requires { depth ≤ 10 }
    ensures { IsAnswerTo (Stencils depth) mesh.now result steps.old steps.new }
{
    let composed = compose(alloc, mesh, depth, steps)?;
    // The prover proves a named drop once for each type.
    drop(composed.level);
    Ok(Reply::Table(composed.table))
}
