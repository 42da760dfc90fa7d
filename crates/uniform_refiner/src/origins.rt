//! The origins of the points and faces of the next level.

ghost use Rattle.std.specs.Prelude.{◌≡◌, ◌++◌, ◌<◌, length, map, IfOk, OnOk};
ghost use Rattle.std.specs.List.{range_with_len};
ghost use Rattle.subdiv_model.specs.Polygons.{polygon_at};
ghost use Rattle.level_topology.specs.ChildTables.{origin_of, place_of, numbered_origin};
ghost use Rattle.uniform_refiner.specs.Uniform.{all_places, origins_in};

use child_slots::first_child_of;
use level_topology::{FacePlace, Level, Origin};
use ratio128::Memory;
use std::alloc::Global;

// Returns the origin of point `n`: vertices come first, then faces, then edges.
fn origin_at(n: u32, vertices: u32, faces: u32) -> Origin
    ensures { origin_of result ≡ numbered_origin vertices faces n }
{
    if n < vertices {
        Origin::Vertex(n)
    } else if n - vertices < faces {
        Origin::Face(n - vertices)
    } else {
        Origin::Edge(n - vertices - faces)
    }
}

// Returns the origin of each point of the next level.
pub(crate) fn put_origins(alloc: Global, level: &Level) -> Result<Vec<Origin>, Memory>
    ensures { IfOk result (λ origins. map origin_of origins.items ≡ origins_in level.now) }
{
    level.facts();
    let (vertices, faces) = (level.points(), level.faces());
    let count = vertices + faces + level.edges();
    let mut origins = Vec::with_capacity(alloc, count as usize)?;
    for n in 0..count {
        origins.push(origin_at(n, vertices, faces))?;
    }
    Ok(origins)
}

// Adds the places of the child faces of a face.
fn put_corners(level: &Level, f: u32, places: &mut Vec<FacePlace>) -> Result<(), Memory>
    requires { f < length level.now.level.polygons }
    ensures { OnOk result (map place_of places.new.items ≡ map place_of places.old.items ++ map (λ c. (f, c)) (range_with_len 0 (length (polygon_at level.now.level.polygons f)))) }
{
    level.facts();
    for c in 0..level.face_vertices(f).len() {
        places.push(FacePlace {
            face: f,
            corner: c as u32,
        })?;
    }
    Ok(())
}

// Returns the place of each face of the next level.
pub(crate) fn put_places(alloc: Global, level: &Level) -> Result<Vec<FacePlace>, Memory>
    ensures { IfOk result (λ places. map place_of places.items ≡ all_places 0 level.now.level.polygons) }
{
    let count = first_child_of(level, level.faces());
    let mut places = Vec::with_capacity(alloc, count as usize)?;
    for f in 0..level.faces() {
        put_corners(level, f, &mut places)?;
    }
    Ok(places)
}
