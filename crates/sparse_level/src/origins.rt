//! The origins of the points of the next level.

ghost use Rattle.std.specs.Prelude.{◌≡◌, length, map, IfOk};
ghost use Rattle.level_topology.specs.ChildTables.{origin_of, numbered_origin};

use level_topology::{Level, Origin};
use ratio128::Memory;
use std::alloc::Global;

// Returns the origin of point `n`: vertices come first, then faces, then edges.
fn origin_at(n: u32, vertices: u32, faces: u32) -> Origin
    ensures { origin_of result ≡ numbered_origin vertices faces n }
{
    if n < vertices {
        Origin::Vertex(n)
    } else if n - vertices < faces {
        Origin::Face(n - vertices)
    } else {
        Origin::Edge(n - vertices - faces)
    }
}

/// Returns the origin of each of `points`, numbers of points of the whole next level. An origin is a vertex, a face or an
/// edge of the level.
///
/// Reports `Memory` where memory runs out.
pub fn put_origins(alloc: Global, level: &Level, points: &[u32]) -> Result<Vec<Origin>, Memory>
    ensures { IfOk result (λ origins. map origin_of origins.items
        ≡ map (numbered_origin level.now.level.point_count (length level.now.level.polygons)) points.now) }
{
    let (vertices, faces) = (level.points(), level.faces());
    let mut origins = Vec::with_capacity(alloc, points.len())?;
    for n in points {
        origins.push(origin_at(*n, vertices, faces))?;
    }
    Ok(origins)
}
