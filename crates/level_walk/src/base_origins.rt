//! The origins of level 0.

ghost use Rattle.std.specs.Prelude.{◌≡◌, length, map, IfOk};
ghost use Rattle.std.specs.List.{range_with_len};
ghost use Rattle.subdiv_model.specs.Edges.{edges_of};
ghost use Rattle.level_walk.specs.Origins.{OnPoint, OnEdge, base_origins};
ghost use Rattle.level_walk.specs.OriginsView.{seen_origin, seen_origins};

use crate::origin::{Origin, Origins};
use level_topology::Level;
use ratio128::Memory;
use std::alloc::Global;

// Returns this many points, each its own origin.
fn own_points(alloc: Global, count: u32) -> Result<Vec<Origin>, Memory>
    ensures { IfOk result (λ points. map seen_origin points.items ≡ map OnPoint (range_with_len 0 count)) }
{
    let mut points = Vec::with_capacity(alloc, count as usize)?;
    for v in 0..count {
        points.push(Origin::Point(v))?;
    }
    Ok(points)
}

// Returns this many edges, each its own origin.
fn own_edges(alloc: Global, count: u32) -> Result<Vec<Origin>, Memory>
    ensures { IfOk result (λ edges. map seen_origin edges.items ≡ map OnEdge (range_with_len 0 count)) }
{
    let mut edges = Vec::with_capacity(alloc, count as usize)?;
    for e in 0..count {
        edges.push(Origin::Edge(e))?;
    }
    Ok(edges)
}

// Returns this many faces, each a part of itself.
fn own_faces(alloc: Global, count: u32) -> Result<Vec<u32>, Memory>
    ensures { IfOk result (λ faces. faces.items ≡ range_with_len 0 count) }
{
    let mut faces = Vec::with_capacity(alloc, count as usize)?;
    for f in 0..count {
        faces.push(f)?;
    }
    Ok(faces)
}

// Returns the origins of level 0.
pub(crate) fn own_origins(alloc: Global, base: &Level) -> Result<Origins, Memory>
    ensures { IfOk result (λ origins. seen_origins origins ≡ base_origins base.now.level) }
{
    Ok(Origins {
        points: own_points(alloc, base.points())?,
        edges: own_edges(alloc, base.edges())?,
        faces: own_faces(alloc, base.faces())?,
    })
}
