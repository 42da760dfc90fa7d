//! The child face of a corner, and the slots of its sides.

ghost use Rattle.std.specs.Prelude.{◌≡◌, ◌+◌, ◌<◌, ◌≤◌, length};
ghost use Rattle.subdiv_model.specs.Polygons.{polygon_at};
ghost use Rattle.subdiv_model.specs.Edges.{edges_of};
ghost use Rattle.level_topology.specs.Topology.{end_of};
ghost use Rattle.child_slots.specs.Slots.{first_child, half_slot, inner_slot, numbered_edge_point, quad_at, slots_at};

use level_topology::{Level, corner_before};

/// Returns the number of the first child face of face `f`, which is the number of corners of the faces before it. For the
/// number of faces it returns the number of all child faces.
pub fn first_child_of(level: &Level, f: u32) -> u32
    requires { f ≤ length level.now.level.polygons }
    ensures { result ≡ first_child level.now.level.polygons f }
{
    level.corner_starts()[f as usize]
}

// Returns 0 if a point is the first end of an edge, and 1 otherwise.
fn end(level: &Level, v: u32, e: u32) -> u32
    requires { e < length (edges_of level.now.level.polygons) }
    ensures { result ≡ end_of level.now.level.polygons v e }
{
    let (first, _) = level.edge_vertices(e);
    if v == first { 0 } else { 1 }
}

/// Returns the slot of the half of edge `e` at its end `v`: 2e at the first end, 2e + 1 at the other.
pub fn half_slot_of(level: &Level, v: u32, e: u32) -> u32
    requires { e < length (edges_of level.now.level.polygons) }
    ensures { result ≡ half_slot level.now.level.polygons v e }
{
    level.facts();
    2 * e + end(level, v, e)
}

/// Returns the slot of an edge inside face `f`: the one that begins at the point of the edge after corner `c`.
pub fn inner_slot_of(level: &Level, f: u32, c: usize) -> u32
    requires { c < length (polygon_at level.now.level.polygons f) }
    ensures { result ≡ inner_slot level.now.level.polygons f c }
{
    level.facts();
    2 * level.edges() + (first_child_of(level, f) + c as u32)
}

/// Returns the number, in the whole next level, of the point of edge `e`.
pub fn edge_point_of(level: &Level, e: u32) -> u32
    requires { e < length (edges_of level.now.level.polygons) }
    ensures { result ≡ numbered_edge_point level.now.level.point_count level.now.level.polygons e }
{
    level.facts();
    level.points() + level.faces() + e
}

/// Returns the four corners of the child face of corner `c` of face `f`, with numbers of the whole next level. Their order is
/// the corner, the point of the edge after it, the point of the face, the point of the edge before it.
pub fn child_corners(level: &Level, f: u32, c: usize) -> [u32; 4]
    requires { c < length (polygon_at level.now.level.polygons f) }
    ensures { result ≡ quad_at level.now.level.point_count level.now.level.polygons f c }
{
    level.facts();
    let corners = level.face_vertices(f);
    let edges = level.face_edges(f);
    let before = corner_before(corners.len(), c);
    [
        corners[c],
        edge_point_of(level, edges[c]),
        level.points() + f,
        edge_point_of(level, edges[before]),
    ]
}

/// Returns the slots of the four sides of the child face of corner `c`, in the order of the sides.
pub fn side_slots(level: &Level, f: u32, c: usize) -> [u32; 4]
    requires { c < length (polygon_at level.now.level.polygons f) }
    ensures { result ≡ slots_at level.now.level.polygons f c }
{
    let corners = level.face_vertices(f);
    let edges = level.face_edges(f);
    let before = corner_before(corners.len(), c);
    [
        half_slot_of(level, corners[c], edges[c]),
        inner_slot_of(level, f, c),
        inner_slot_of(level, f, before),
        half_slot_of(level, corners[c], edges[before]),
    ]
}
