//! The check of a mesh, and level 0.

ghost use Rattle.std.specs.Prelude.{◌≡◌, ◌+◌, ◌≤◌, true, None, length, replicate, IfOk, MatchResult};
ghost use Rattle.subdiv_model.specs.Lists.{first_of};
ghost use Rattle.subdiv_model.specs.MeshFault.{first_mesh_fault};
ghost use Rattle.subdiv_model.specs.Base.{base_level};
ghost use Rattle.subdiv_model.specs.Edges.{all_sides};
ghost use Rattle.level_builder.specs.Keys.{AreEdgeKeys};
ghost use Rattle.mesh_check.specs.Counts.{size_faults};
ghost use Rattle.mesh_check.specs.Base.{AreEdges};
ghost use Rattle.mesh_check.specs.Checked.{IsAccepted, IsRefused};

use crate::base::base_level;
use crate::boundary::{known_edges, mesh_boundary};
use crate::counts::size_fault;
use crate::fault::CheckFault;
use crate::faults::mesh_fault;
use crate::holes::hole_marks;
use crate::sides::sides_of_faces;
use crate::valence::valence_fault;
use level_topology::Level;
use ratio128::{Memory, Steps};
use raw_mesh::RawMesh;
use std::alloc::Global;
use std::sync::ledger::Ledger;

// Returns level 0 of a mesh without fault whose sizes are within their limits, from its sides and the numbers of its edges.
fn level_of<L: Ledger>(
    alloc: Global,
    raw: &RawMesh,
    sides: Vec<(u32, u32)>,
    edges: &[u64],
    steps: &mut Steps<L>,
) -> Result<Level, Memory>
    requires sound { first_mesh_fault (length raw.now.points) raw.now.faces ≡ None }
    requires small { first_of (size_faults raw.now) ≡ None }
    requires sides { sides.items ≡ all_sides raw.now.faces }
    requires keys { AreEdgeKeys (all_sides raw.now.faces) edges.now }
    requires edges { AreEdges raw.now.faces edges.now }
    ensures level { IfOk result (λ level. level.level ≡ base_level raw.now) }
    ensures complete { IfOk result (λ level. level.complete ≡ replicate (length raw.now.points) true) }
    ensures steps { steps.new ≤ steps.old + length raw.now.faces }
    ensures later { steps.old ≤ steps.new }
{
    let boundary = mesh_boundary(alloc, raw, sides, edges)?;
    let holes = hole_marks(alloc, raw, &boundary)?;
    raw.facts();
    let level = base_level(alloc, raw, edges, &boundary, &holes, steps)?;
    Ok(level)
}

// Returns level 0 of a mesh without fault whose sizes are within their limits, unless a vertex has too many edges. The call
// counts the edges before it builds the level.
fn small_level<L: Ledger>(
    alloc: Global,
    raw: &RawMesh,
    steps: &mut Steps<L>,
) -> Result<Level, CheckFault>
    requires sound { first_mesh_fault (length raw.now.points) raw.now.faces ≡ None }
    requires small { first_of (size_faults raw.now) ≡ None }
    ensures checked { MatchResult result (λ level. IsAccepted raw.now level) (λ fault. IsRefused raw.now fault) }
    ensures steps { steps.new ≤ steps.old + length raw.now.faces }
    ensures later { steps.old ≤ steps.new }
{
    let sides = sides_of_faces(alloc, raw)?;
    let edges = known_edges(alloc, &sides)?;
    match valence_fault(alloc, raw, &edges)? {
        Some(counted) => return Err(CheckFault::TooLarge(counted)),
        None => {}
    }
    let level = level_of(alloc, raw, sides, &edges, steps)?;
    Ok(level)
}

/// Returns level 0 of a mesh: its faces and holes, with the sharpness of its tags and of its boundary. Each point is
/// complete. Each face takes at most one step. The time is about that of sorting the edges, for every mesh.
///
/// Reports `Mesh` with the first fault exactly where the mesh is not a manifold. The order of faults is that of `MeshFault`.
/// Within a kind the first is the least face, the edge that a face names first, or the least vertex.
///
/// Reports `TooLarge` exactly where a manifold exceeds a limit: 2^20 points, 2^20 faces, 2^16 corners of a face or 2^16 edges
/// of a vertex. It names the first of these, with the least face or vertex. Reports `Memory` where memory runs out, for any
/// mesh.
pub fn check_mesh<L: Ledger>(
    alloc: Global,
    raw: &RawMesh,
    steps: &mut Steps<L>,
) -> Result<Level, CheckFault>
    ensures checked { MatchResult result (λ level. IsAccepted raw.now level) (λ fault. IsRefused raw.now fault) }
    ensures steps { steps.new ≤ steps.old + length raw.now.faces }
    ensures later { steps.old ≤ steps.new }
{
    match mesh_fault(alloc, raw)? {
        Some(fault) => return Err(CheckFault::Mesh(fault)),
        None => {}
    }
    match size_fault(raw) {
        Some(counted) => return Err(CheckFault::TooLarge(counted)),
        None => {}
    }
    small_level(alloc, raw, steps)
}
