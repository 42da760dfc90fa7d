//! The points of the next level that come from edges.

ghost use Rattle.std.specs.Prelude.{◌≡◌, ◌≢◌, ◌+◌, ◌*◌, ◌<◌, true, length, get_or, OnOk};
ghost use Rattle.subdiv_model.specs.Polygons.{is_among};
ghost use Rattle.subdiv_model.specs.Edges.{edges_of};
ghost use Rattle.child_slots.specs.Slots.{numbered_edge_point};
ghost use Rattle.child_slots.specs.Slotted.{number_at};
ghost use Rattle.uniform_refiner.specs.Put.{AreChildEdges};
ghost use Rattle.uniform_refiner.specs.ChildRows.{IsChildRow};

use child_slots::{SlotEdges, edge_point_of, put_ends};
use level_topology::{Level, PointLists};
use ratio128::Memory;

// Returns the numbers of the two halves of an edge.
fn halves_of(level: &Level, edges: &SlotEdges, e: u32) -> (u32, u32)
    requires edge { e < length (edges_of level.now.level.polygons) }
    requires edges { AreChildEdges level.now.level edges.now }
    ensures first { result.0 ≡ number_at edges.now.slots (2 * e) }
    ensures second { result.1 ≡ number_at edges.now.slots (2 * e + 1) }
    ensures first_there { result.0 < length edges.now.ends }
    ensures second_there { result.1 < length edges.now.ends }
{
    level.facts();
    (edges.number(2 * e), edges.number(2 * e + 1))
}

// Returns the number of the edge inside a face that begins in a child face.
fn inner_of(level: &Level, edges: &SlotEdges, child: u32) -> u32
    requires edges { AreChildEdges level.now.level edges.now }
    requires slot { 2 * length (edges_of level.now.level.polygons) + child < edges.now.count }
    requires there { is_among edges.now.slots (2 * length (edges_of level.now.level.polygons) + child) ≡ true }
    ensures { result ≡ number_at edges.now.slots (2 * length (edges_of level.now.level.polygons) + child) }
{
    level.facts();
    edges.number(2 * level.edges() + child)
}

// Makes the lists at the point of an edge with one face; `starts` and `ends` are the child faces at its halves.
fn put_boundary_row(
    level: &Level,
    edges: &SlotEdges,
    e: u32,
    starts: (u32, u32),
    ends: (u32, u32),
    row: &mut PointLists,
) -> Result<(), Memory>
    requires edge { e < length (edges_of level.now.level.polygons) }
    requires edges { AreChildEdges level.now.level edges.now }
    requires starts { starts ≡ get_or edges.now.faces (number_at edges.now.slots (2 * e)) (0, 0) }
    requires ends { ends ≡ get_or edges.now.faces (number_at edges.now.slots (2 * e + 1)) (0, 0) }
    requires boundary { ends.1 ≡ ends.0 }
    ensures { OnOk result (IsChildRow level.now.level (numbered_edge_point level.now.level.point_count level.now.level.polygons e) row.new) }
{
    level.facts();
    row.clear();
    let inner = inner_of(level, edges, starts.0);
    let (start, end) = halves_of(level, edges, e);
    row.faces.extend_from_slice(&[starts.0, ends.0])?;
    row.faces_at.extend_from_slice(&[1, 3])?;
    row.edges.extend_from_slice(&[start, inner, end])?;
    put_ends(
        edges,
        edge_point_of(level, e),
        &row.edges,
        &mut row.edges_at,
    )?;
    Ok(())
}

// Makes the lists at the point of an edge with two faces: the child faces of the first, then those of the second.
fn put_inside_row(
    level: &Level,
    edges: &SlotEdges,
    e: u32,
    starts: (u32, u32),
    ends: (u32, u32),
    row: &mut PointLists,
) -> Result<(), Memory>
    requires edge { e < length (edges_of level.now.level.polygons) }
    requires edges { AreChildEdges level.now.level edges.now }
    requires starts { starts ≡ get_or edges.now.faces (number_at edges.now.slots (2 * e)) (0, 0) }
    requires ends { ends ≡ get_or edges.now.faces (number_at edges.now.slots (2 * e + 1)) (0, 0) }
    requires two { ends.1 ≢ ends.0 }
    ensures { OnOk result (IsChildRow level.now.level (numbered_edge_point level.now.level.point_count level.now.level.polygons e) row.new) }
{
    level.facts();
    row.clear();
    let inner = inner_of(level, edges, starts.0);
    let other = inner_of(level, edges, ends.1);
    let (start, end) = halves_of(level, edges, e);
    row.faces
        .extend_from_slice(&[starts.0, ends.0, ends.1, starts.1])?;
    row.faces_at.extend_from_slice(&[1, 3, 1, 3])?;
    row.edges.extend_from_slice(&[start, inner, end, other])?;
    put_ends(
        edges,
        edge_point_of(level, e),
        &row.edges,
        &mut row.edges_at,
    )?;
    Ok(())
}

// Makes the lists at the point of an edge.
pub(crate) fn put_edge_row(
    level: &Level,
    edges: &SlotEdges,
    e: u32,
    row: &mut PointLists,
) -> Result<(), Memory>
    requires edge { e < length (edges_of level.now.level.polygons) }
    requires edges { AreChildEdges level.now.level edges.now }
    ensures { OnOk result (IsChildRow level.now.level (numbered_edge_point level.now.level.point_count level.now.level.polygons e) row.new) }
{
    level.facts();
    let (start, end) = halves_of(level, edges, e);
    let starts = edges.faces(start);
    let ends = edges.faces(end);
    if ends.1 == ends.0 {
        put_boundary_row(level, edges, e, starts, ends, row)
    } else {
        put_inside_row(level, edges, e, starts, ends, row)
    }
}
