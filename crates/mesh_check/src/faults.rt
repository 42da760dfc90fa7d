//! The first fault of a mesh, kind by kind.

ghost use Rattle.std.specs.Prelude.{◌≡◌, length, IfOk};
ghost use Rattle.subdiv_model.specs.Lists.{first_of};
ghost use Rattle.subdiv_model.specs.MeshFault.{first_mesh_fault};
ghost use Rattle.mesh_check.specs.View.{named};
ghost use Rattle.mesh_check.specs.Faults.{corner_faults, edge_faults, edge_named, vertex_named};
ghost use Rattle.mesh_check.specs.Turns.{AreSortedTurns};

use crate::corners::{repeating_face, small_face};
use crate::edges::{clashing_side, crowded_side};
use crate::fault::MeshFault;
use crate::sides::sides_of_faces;
use crate::split::split_vertex;
use crate::turns::{Turn, has_equal_neighbours, sorted_turns};
use ratio128::Memory;
use raw_mesh::RawMesh;
use std::alloc::Global;

// Returns the first fault of the corners of faces.
pub(crate) fn corner_fault(alloc: Global, raw: &RawMesh) -> Result<Option<MeshFault>, Memory>
    ensures { IfOk result (λ found. named found ≡ first_of (corner_faults raw.now.faces)) }
{
    if let Some(f) = small_face(raw) {
        return Ok(Some(MeshFault::FaceTooSmall(f)));
    }
    let found = repeating_face(alloc, raw)?;
    match found {
        Some(f) => Ok(Some(MeshFault::RepeatedVertex(f))),
        None => Ok(None),
    }
}

// Returns the fault of a crowded edge, or else that of a clashing edge.
fn edge_named(crowded: Option<(u32, u32)>, clashing: Option<(u32, u32)>) -> Option<MeshFault>
    ensures { named result ≡ edge_named crowded clashing }
{
    match (crowded, clashing) {
        (Some(edge), _) => Some(MeshFault::NonManifoldEdge(edge.0, edge.1)),
        (None, Some(edge)) => Some(MeshFault::WindingClash(edge.0, edge.1)),
        (None, None) => None,
    }
}

// Returns the fault of a vertex whose faces are more than one fan.
fn vertex_named(found: Option<u32>) -> Option<MeshFault>
    ensures { named result ≡ vertex_named found }
{
    match found {
        Some(v) => Some(MeshFault::SplitVertex(v)),
        None => None,
    }
}

// Returns the first fault of the edges of faces. If no side comes to two corners, no edge has a fault.
fn edge_fault(alloc: Global, raw: &RawMesh, turns: &[Turn]) -> Result<Option<MeshFault>, Memory>
    requires { AreSortedTurns raw.now.faces turns.now }
    ensures { IfOk result (λ found. named found ≡ first_of (edge_faults raw.now.faces)) }
{
    if !has_equal_neighbours(turns) {
        return Ok(None);
    }
    let sides = sides_of_faces(alloc, raw)?;
    let crowded = crowded_side(alloc, &sides)?;
    let clashing = clashing_side(alloc, &sides)?;
    Ok(edge_named(crowded, clashing))
}

// Returns the first fault of a mesh.
pub(crate) fn mesh_fault(alloc: Global, raw: &RawMesh) -> Result<Option<MeshFault>, Memory>
    ensures { IfOk result (λ found. named found ≡ first_mesh_fault (length raw.now.points) raw.now.faces) }
{
    if let Some(fault) = corner_fault(alloc, raw)? {
        return Ok(Some(fault));
    }
    let turns = sorted_turns(alloc, raw)?;
    if let Some(fault) = edge_fault(alloc, raw, &turns)? {
        return Ok(Some(fault));
    }
    let found = split_vertex(alloc, raw, &turns)?;
    Ok(vertex_named(found))
}
