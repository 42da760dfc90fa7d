//! The points of the next level that come from vertices.

ghost use Rattle.std.specs.Prelude.{◌≡◌, ◌+◌, ◌<◌, true, false, [], map, get_or, OnOk};
ghost use Rattle.level_topology.specs.Topology.{corner_of};
ghost use Rattle.child_slots.specs.Slots.{first_child, half_slot};
ghost use Rattle.child_slots.specs.Slotted.{number_at};
ghost use Rattle.uniform_refiner.specs.Put.{AreChildEdges};
ghost use Rattle.uniform_refiner.specs.ChildRows.{IsChildRow};

use child_slots::{SlotEdges, first_child_of, half_slot_of, put_corner, put_ends};
use level_topology::{Level, PointLists};
use ratio128::Memory;

// Adds the child faces at a vertex: in each of its faces the child of its corner.
fn put_children_at(level: &Level, v: u32, list: &mut Vec<u32>) -> Result<(), Memory>
    requires point { v < level.now.level.point_count }
    requires none { list.old.items ≡ [] }
    ensures { OnOk result (list.new.items ≡ map (λ f. first_child level.now.level.polygons f + corner_of level.now.level.polygons v f) (get_or level.now.faces_at v [])) }
{
    level.facts();
    let faces = level.vertex_faces(v);
    let corners = level.vertex_faces_at(v);
    for i in 0..faces.len() {
        list.push(first_child_of(level, faces[i]) + corners[i] as u32)?;
    }
    Ok(())
}

// Adds the halves, at a vertex, of its edges.
fn put_halves_at(
    level: &Level,
    edges: &SlotEdges,
    v: u32,
    list: &mut Vec<u32>,
) -> Result<(), Memory>
    requires point { v < level.now.level.point_count }
    requires edges { AreChildEdges level.now.level edges.now }
    requires none { list.old.items ≡ [] }
    ensures { OnOk result (list.new.items ≡ map (λ e. number_at edges.now.slots (half_slot level.now.level.polygons v e)) (get_or level.now.edges_at v [])) }
{
    level.facts();
    let around = level.vertex_edges(v);
    for i in 0..around.len() {
        list.push(edges.number(half_slot_of(level, v, around[i])))?;
    }
    Ok(())
}

// Makes the lists at a complete vertex.
pub(crate) fn put_vertex_row(
    level: &Level,
    edges: &SlotEdges,
    v: u32,
    row: &mut PointLists,
) -> Result<(), Memory>
    requires point { v < level.now.level.point_count }
    requires edges { AreChildEdges level.now.level edges.now }
    requires whole { get_or level.now.complete v false ≡ true }
    ensures { OnOk result (IsChildRow level.now.level v row.new) }
{
    level.facts();
    row.clear();
    put_children_at(level, v, &mut row.faces)?;
    put_corner(0, row.faces.len(), &mut row.faces_at)?;
    put_halves_at(level, edges, v, &mut row.edges)?;
    put_ends(edges, v, &row.edges, &mut row.edges_at)?;
    Ok(())
}
