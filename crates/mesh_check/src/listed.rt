//! All faults of a mesh, kind by kind.

ghost use Rattle.std.specs.Prelude.{◌≡◌, ◌++◌, nat_eq, length, map, IfOk, OnOk};
ghost use Rattle.mesh_check.specs.View.{mesh_fault_of};
ghost use Rattle.mesh_check.specs.Faults.{corner_faults, edge_faults};
ghost use Rattle.mesh_check.specs.Listed.{listed_faults};
ghost use Rattle.mesh_check.specs.Turns.{AreSortedTurns};

use crate::corners::{put_repeating_faces, put_small_faces};
use crate::edge_list::put_edge_faults;
use crate::fault::MeshFault;
use crate::split::put_split_vertices;
use crate::turns::{Turn, sorted_turns};
use ratio128::Memory;
use raw_mesh::RawMesh;
use std::alloc::Global;

// Returns whether vertices are checked, which needs that faces and edges have no fault.
fn are_vertices_judged(faults: &[MeshFault]) -> bool
    ensures { result ≡ nat_eq (length faults.now) 0 }
{
    faults.is_empty()
}

// Adds the faults of vertices, if the list of the faults of faces and edges is empty.
fn put_vertex_faults(
    alloc: Global,
    faults: &mut Vec<MeshFault>,
    raw: &RawMesh,
    turns: &[Turn],
) -> Result<(), Memory>
    requires found { map mesh_fault_of faults.old.items ≡ corner_faults raw.now.faces ++ edge_faults raw.now.faces }
    requires sorted { AreSortedTurns raw.now.faces turns.now }
    ensures { OnOk result (map mesh_fault_of faults.new.items ≡ listed_faults (length raw.now.points) raw.now.faces) }
{
    if !are_vertices_judged(faults) {
        return Ok(());
    }
    put_split_vertices(alloc, faults, raw, turns)
}

/// Returns all faults of a mesh, in the order of the kinds of `MeshFault`. It checks vertices only where faces and edges have
/// no fault.
///
/// Faces and vertices are counted from 0 and ascend within a kind. Each edge occurs once, in the order in which faces first
/// name the edges, with its ends in the order of the first naming. The list is empty exactly for a manifold, and its first
/// fault is the one that [`check_mesh`](crate::check_mesh) reports.
///
/// Reports `Memory` where memory runs out. The time is about that of sorting the edges, for every mesh.
pub fn mesh_faults(alloc: Global, raw: &RawMesh) -> Result<Vec<MeshFault>, Memory>
    ensures { IfOk result (λ faults. map mesh_fault_of faults.items ≡ listed_faults (length raw.now.points) raw.now.faces) }
{
    let mut faults = Vec::new(alloc);
    put_small_faces(&mut faults, raw)?;
    put_repeating_faces(alloc, &mut faults, raw)?;
    let turns = sorted_turns(alloc, raw)?;
    put_edge_faults(alloc, &mut faults, raw, &turns)?;
    put_vertex_faults(alloc, &mut faults, raw, &turns)?;
    Ok(faults)
}
