//! The edges of the faces, and the sides whose edge belongs to no other side.

ghost use Rattle.std.specs.Prelude.{◌≡◌, ℕ, nat_eq, length, IfOk, None};
ghost use Rattle.std.specs.List.{filter, list_any, count_by};
ghost use Rattle.subdiv_model.specs.Polygons.{same_edge, is_among};
ghost use Rattle.subdiv_model.specs.Edges.{all_sides, is_boundary};
ghost use Rattle.subdiv_model.specs.MeshFault.{first_mesh_fault};
ghost use Rattle.level_builder.specs.Keys.{IsWord, edge_key, Rises, AreEdgeKeys};

use crate::edges::sides_among;
use level_builder::{edge_keys, unrepeated};
use ratio128::Memory;
use raw_mesh::RawMesh;
use std::alloc::Global;

// Returns the edges of all sides as numbers, ascending. An edge occurs once for each of its sides.
pub(crate) fn known_edges(alloc: Global, sides: &[(u32, u32)]) -> Result<Vec<u64>, Memory>
    ensures rises { IfOk result (λ edges. Rises edges.items) }
    ensures known { IfOk result (λ edges. (s : ℕ × ℕ) → IsWord s → is_among edges.items (edge_key s) ≡ list_any (same_edge s) sides.now) }
    ensures keys { IfOk result (λ edges. AreEdgeKeys sides.now edges.items) }
{
    let mut edges = edge_keys(alloc, sides)?;
    edges.sort_unstable();
    Ok(edges)
}

// Returns the sides whose edge belongs to no other side.
fn boundary_sides(
    alloc: Global,
    sides: &[(u32, u32)],
    edges: &[u64],
) -> Result<Vec<(u32, u32)>, Memory>
    requires { AreEdgeKeys sides.now edges.now }
    ensures { IfOk result (λ found. found.items ≡ filter (λ s. nat_eq (count_by (same_edge s) sides.now) 1) sides.now) }
{
    let once = unrepeated(alloc, edges)?;
    let found = sides_among(alloc, sides, &once, false)?;
    Ok(found)
}

// Returns the sides of a mesh without fault whose edge has one face. The call takes all sides over and frees their memory.
// Only the contract uses `raw`.
pub(crate) fn mesh_boundary(
    alloc: Global,
    raw: &RawMesh,
    sides: Vec<(u32, u32)>,
    edges: &[u64],
) -> Result<Vec<(u32, u32)>, Memory>
    requires sound { first_mesh_fault (length raw.now.points) raw.now.faces ≡ None }
    requires sides { sides.items ≡ all_sides raw.now.faces }
    requires edges { AreEdgeKeys sides.items edges.now }
    ensures { IfOk result (λ found. found.items ≡ filter (is_boundary raw.now.faces) (all_sides raw.now.faces)) }
{
    let _ = raw;
    let found = boundary_sides(alloc, &sides, edges)?;
    Ok(found)
}
