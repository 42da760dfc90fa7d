//! The points of the next level that come from faces.

ghost use Rattle.std.specs.Prelude.{◌≡◌, ◌<◌, [], length, OnOk};
ghost use Rattle.subdiv_model.specs.Child.{face_point};
ghost use Rattle.child_slots.specs.Slots.{turn_at};
ghost use Rattle.uniform_refiner.specs.Put.{AreChildEdges};
ghost use Rattle.uniform_refiner.specs.ChildRows.{IsChildRow, turned_children, turned_inner_edges};

use child_slots::{SlotEdges, first_child_of, inner_slot_of, put_corner, put_ends};
use level_topology::{Level, PointLists};
use ratio128::Memory;

// Returns the corner at place `i` of the fan, in which each corner comes before the last one.
fn turn(size: usize, i: usize) -> usize
    requires { i < size }
    ensures { result ≡ turn_at size i }
{
    if i == 0 { 0 } else { size - i }
}

// Adds the child faces of a face.
fn put_children_of(level: &Level, f: u32, list: &mut Vec<u32>) -> Result<(), Memory>
    requires face { f < length level.now.level.polygons }
    requires none { list.old.items ≡ [] }
    ensures { OnOk result (list.new.items ≡ turned_children level.now.level.polygons f) }
{
    level.facts();
    let size = level.face_vertices(f).len();
    for i in 0..size {
        list.push(first_child_of(level, f) + turn(size, i) as u32)?;
    }
    Ok(())
}

// Adds the edges inside a face, each as it comes to the face's point in a child face.
fn put_inner_edges(
    level: &Level,
    edges: &SlotEdges,
    f: u32,
    list: &mut Vec<u32>,
) -> Result<(), Memory>
    requires face { f < length level.now.level.polygons }
    requires edges { AreChildEdges level.now.level edges.now }
    requires none { list.old.items ≡ [] }
    ensures { OnOk result (list.new.items ≡ turned_inner_edges edges.now.slots level.now.level.polygons f) }
{
    level.facts();
    let size = level.face_vertices(f).len();
    for i in 0..size {
        list.push(edges.number(inner_slot_of(level, f, turn(size, i))))?;
    }
    Ok(())
}

// Makes the lists at the point of a face.
pub(crate) fn put_face_row(
    level: &Level,
    edges: &SlotEdges,
    f: u32,
    row: &mut PointLists,
) -> Result<(), Memory>
    requires face { f < length level.now.level.polygons }
    requires edges { AreChildEdges level.now.level edges.now }
    ensures { OnOk result (IsChildRow level.now.level (face_point level.now.level.point_count f) row.new) }
{
    level.facts();
    row.clear();
    put_children_of(level, f, &mut row.faces)?;
    put_corner(2, row.faces.len(), &mut row.faces_at)?;
    put_inner_edges(level, edges, f, &mut row.edges)?;
    put_ends(edges, level.points() + f, &row.edges, &mut row.edges_at)?;
    Ok(())
}
