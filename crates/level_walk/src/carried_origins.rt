//! The origins of a child, from those of its parent.

ghost use Rattle.std.specs.Prelude.{◌≡◌, ◌<◌, length, map, get_or, IfOk};
ghost use Rattle.subdiv_model.specs.Edges.{edges_of};
ghost use Rattle.level_topology.specs.Topology.{edge_at};
ghost use Rattle.level_topology.specs.Child.{IsOriginWithin};
ghost use Rattle.level_topology.specs.ChildLaws.{point_origin, face_place};
ghost use Rattle.level_topology.specs.ChildTables.{origin_of};
ghost use Rattle.level_walk.specs.Origins.{origin_of_part, part_of_edge};
ghost use Rattle.level_walk.specs.ChildOrigins.{AreOfParent, origin_of_child_edge, child_origins};
ghost use Rattle.level_walk.specs.OriginsView.{seen_origin, seen_origins};

use crate::origin::{Origin, Origins, number_of};
use level_topology::Child;
use ratio128::Memory;
use std::alloc::Global;

// Returns the part of the parent on which an edge lies; the ends of the edge come from these parts.
fn joined_part(
    first: level_topology::Origin,
    second: level_topology::Origin,
) -> level_topology::Origin
    ensures { origin_of result ≡ part_of_edge (origin_of first) (origin_of second) }
{
    match (first, second) {
        (level_topology::Origin::Face(_), _) => first,
        (level_topology::Origin::Vertex(_), _) => second,
        (level_topology::Origin::Edge(_), level_topology::Origin::Face(_)) => second,
        (level_topology::Origin::Edge(_), _) => first,
    }
}

// Returns the origin of a part of the parent.
fn origin_of_part(before: &Origins, part: level_topology::Origin) -> Origin
    requires { IsOriginWithin (length before.now.points.items) (length before.now.faces.items) (length before.now.edges.items) (origin_of part) }
    ensures { seen_origin result ≡ origin_of_part (seen_origins before.now) (origin_of part) }
{
    match part {
        level_topology::Origin::Vertex(v) => before.points[v as usize],
        level_topology::Origin::Face(f) => Origin::Face(before.faces[f as usize]),
        level_topology::Origin::Edge(e) => before.edges[e as usize],
    }
}

// Returns the origin of a point of a child.
fn origin_of_point(child: &Child, before: &Origins, p: u32) -> Origin
    requires parent { AreOfParent child.now (seen_origins before.now) }
    requires exists { p < child.now.topology.level.point_count }
    ensures { seen_origin result ≡ origin_of_part (seen_origins before.now) (point_origin child.now p) }
{
    child.facts();
    origin_of_part(before, child.origin(p))
}

// Returns the origin of the inside of an edge of a child.
fn origin_of_edge(child: &Child, before: &Origins, e: u32) -> Origin
    requires parent { AreOfParent child.now (seen_origins before.now) }
    requires exists { e < length (edges_of child.now.topology.level.polygons) }
    ensures { seen_origin result ≡ origin_of_child_edge child.now (seen_origins before.now) (edge_at child.now.topology.level.polygons e) }
{
    child.facts();
    let (first, second) = child.level().edge_vertices(e);
    origin_of_part(
        before,
        joined_part(child.origin(first), child.origin(second)),
    )
}

// Returns the face of level 0 that a face of a child is part of. The third corner of the face is the point of its parent.
fn base_face(child: &Child, before: &Origins, f: u32) -> u32
    requires parent { AreOfParent child.now (seen_origins before.now) }
    requires exists { f < length child.now.topology.level.polygons }
    ensures { result ≡ get_or (seen_origins before.now).faces (face_place child.now f).0 0 }
{
    child.facts();
    let corners = child.level().face_vertices(f);
    number_of(origin_of_point(child, before, corners[2]))
}

// Returns the origins of the points of a child.
fn next_points(alloc: Global, child: &Child, before: &Origins) -> Result<Vec<Origin>, Memory>
    requires { AreOfParent child.now (seen_origins before.now) }
    ensures { IfOk result (λ points. map seen_origin points.items ≡ (child_origins child.now (seen_origins before.now)).points) }
{
    child.facts();
    let count = child.level().points();
    let mut points = Vec::with_capacity(alloc, count as usize)?;
    for p in 0..count {
        points.push(origin_of_point(child, before, p))?;
    }
    Ok(points)
}

// Returns the origins of the insides of the edges of a child.
fn next_edges(alloc: Global, child: &Child, before: &Origins) -> Result<Vec<Origin>, Memory>
    requires { AreOfParent child.now (seen_origins before.now) }
    ensures { IfOk result (λ edges. map seen_origin edges.items ≡ (child_origins child.now (seen_origins before.now)).edges) }
{
    let count = child.level().edges();
    let mut edges = Vec::with_capacity(alloc, count as usize)?;
    for e in 0..count {
        edges.push(origin_of_edge(child, before, e))?;
    }
    Ok(edges)
}

// Returns, for each face of a child, the face of level 0 that it is part of.
fn next_faces(alloc: Global, child: &Child, before: &Origins) -> Result<Vec<u32>, Memory>
    requires { AreOfParent child.now (seen_origins before.now) }
    ensures { IfOk result (λ faces. faces.items ≡ (child_origins child.now (seen_origins before.now)).faces) }
{
    child.facts();
    let count = child.level().faces();
    let mut faces = Vec::with_capacity(alloc, count as usize)?;
    for f in 0..count {
        faces.push(base_face(child, before, f))?;
    }
    Ok(faces)
}

// Returns the origins of a child.
pub(crate) fn next_origins(
    alloc: Global,
    child: &Child,
    before: &Origins,
) -> Result<Origins, Memory>
    requires { AreOfParent child.now (seen_origins before.now) }
    ensures { IfOk result (λ origins. seen_origins origins ≡ child_origins child.now (seen_origins before.now)) }
{
    Ok(Origins {
        points: next_points(alloc, child, before)?,
        edges: next_edges(alloc, child, before)?,
        faces: next_faces(alloc, child, before)?,
    })
}
