//! All edges with a fault, each once, by first appearance.

ghost use Rattle.std.specs.Prelude.{◌≡◌, ◌++◌, map, IfOk, OnOk};
ghost use Rattle.subdiv_model.specs.Edges.{all_sides};
ghost use Rattle.subdiv_model.specs.MeshFault.{crowded_edges, clashing_edges};
ghost use Rattle.mesh_check.specs.View.{mesh_fault_of};
ghost use Rattle.mesh_check.specs.Faults.{edge_faults};
ghost use Rattle.mesh_check.specs.Listed.{fault_of_edge};
ghost use Rattle.mesh_check.specs.Turns.{AreSortedTurns};

use crate::edges::{clashing_sides, crowded_sides};
use crate::fault::MeshFault;
use crate::once::first_named;
use crate::sides::sides_of_faces;
use crate::turns::{Turn, has_equal_neighbours};
use ratio128::Memory;
use raw_mesh::RawMesh;
use std::alloc::Global;

// Returns the edges with three or more sides. Only the contract uses `raw`.
fn crowded_edges(
    alloc: Global,
    raw: &RawMesh,
    sides: &[(u32, u32)],
) -> Result<Vec<(u32, u32)>, Memory>
    requires { sides.now ≡ all_sides raw.now.faces }
    ensures { IfOk result (λ found. found.items ≡ crowded_edges raw.now.faces) }
{
    let _ = raw;
    let named = crowded_sides(alloc, sides)?;
    let found = first_named(alloc, &named)?;
    Ok(found)
}

// Returns the edges with two sides in one direction. Only the contract uses `raw`.
fn clashing_edges(
    alloc: Global,
    raw: &RawMesh,
    sides: &[(u32, u32)],
) -> Result<Vec<(u32, u32)>, Memory>
    requires { sides.now ≡ all_sides raw.now.faces }
    ensures { IfOk result (λ found. found.items ≡ clashing_edges raw.now.faces) }
{
    let _ = raw;
    let named = clashing_sides(alloc, sides)?;
    let found = first_named(alloc, &named)?;
    Ok(found)
}

// Returns the fault of a crowded edge, or that of a clashing edge.
fn fault_of_edge(crowded: bool, edge: (u32, u32)) -> MeshFault
    ensures { mesh_fault_of result ≡ fault_of_edge crowded edge }
{
    if crowded {
        MeshFault::NonManifoldEdge(edge.0, edge.1)
    } else {
        MeshFault::WindingClash(edge.0, edge.1)
    }
}

// Adds the faults of edges of one kind after other faults.
fn put_edges(faults: &mut Vec<MeshFault>, crowded: bool, edges: &[(u32, u32)]) -> Result<(), Memory>
    ensures { OnOk result (map mesh_fault_of faults.new.items ≡ map mesh_fault_of faults.old.items ++ map (fault_of_edge crowded) edges.now) }
{
    let mut rest = edges;
    while let [edge, others @ ..] = rest {
        faults.push(fault_of_edge(crowded, *edge))?;
        rest = others;
    }
    Ok(())
}

// Adds all faults of edges after other faults. If no side comes to two corners, no edge has a fault.
pub(crate) fn put_edge_faults(
    alloc: Global,
    faults: &mut Vec<MeshFault>,
    raw: &RawMesh,
    turns: &[Turn],
) -> Result<(), Memory>
    requires { AreSortedTurns raw.now.faces turns.now }
    ensures { OnOk result (map mesh_fault_of faults.new.items ≡ map mesh_fault_of faults.old.items ++ edge_faults raw.now.faces) }
{
    if !has_equal_neighbours(turns) {
        return Ok(());
    }
    let sides = sides_of_faces(alloc, raw)?;
    put_edges(faults, true, &crowded_edges(alloc, raw, &sides)?)?;
    put_edges(faults, false, &clashing_edges(alloc, raw, &sides)?)?;
    Ok(())
}
