//! The tables from a parent level into a child.
//!
//! A large child of quads has four times as many faces as its parent, and as many points as faces. Its tables take 13 bytes for each face
//! of the child:
//!
//! - 4 for the number of each point in the whole next level;
//! - 4 for the points by these numbers;
//! - 4 for the faces by the corners of the parent;
//! - 1 for the starts of those corners.

ghost use Rattle.std.specs.Prelude.{◌≡◌, ◌≢◌, ℕ, ◌+◌, ◌-◌, ◌<◌, ◌≤◌, ◌^◌, length, map, get_or, IfOk};
ghost use Rattle.std.specs.List.{All, AllPairs};
ghost use Rattle.level_topology.specs.Packed.{Ascend, gaps};
ghost use Rattle.level_topology.specs.Child.{IsChild, IsOriginWithin, child_of};
ghost use Rattle.level_topology.specs.ChildTables.{origin_of, place_of, point_number, numbered_origin, corner_number, present_place, IsInverse, AreNumbered, child_in, AreOfChild};

use crate::child_origin::{FacePlace, Origin};
use crate::level::Level;
use ratio128::Memory;
use std::alloc::Global;

// The mark of a missing point or face. A level has fewer of both.
const NOWHERE: u32 = u32::MAX;

#[derive(Drop)]
pub(crate) struct ChildTables {
    pub(crate) vertices: u32,
    pub(crate) faces: u32,
    pub(crate) numbers: Vec<u32>,
    pub(crate) points: Vec<u32>,
    pub(crate) starts: Vec<u32>,
    pub(crate) child_faces: Vec<u32>,
}

// The place in a table, or `None` for the mark of a missing one.
pub(crate) fn present_place(place: u32) -> Option<u32>
    ensures { result ≡ present_place place }
{
    if place == NOWHERE { None } else { Some(place) }
}

// The origin of the point with this number in the whole next level.
pub(crate) fn origin_from(number: u32, vertices: u32, faces: u32) -> Origin
    ensures { origin_of result ≡ numbered_origin vertices faces number }
{
    if number < vertices {
        Origin::Vertex(number)
    } else if number - vertices < faces {
        Origin::Face(number - vertices)
    } else {
        Origin::Edge(number - vertices - faces)
    }
}

// The number of a point in the whole next level.
fn number_from(origin: Origin, vertices: u32, faces: u32) -> u32
    requires { point_number vertices faces (origin_of origin) < 2 ^ 32 }
    ensures { result ≡ point_number vertices faces (origin_of origin) }
{
    match origin {
        Origin::Vertex(v) => v,
        Origin::Face(f) => vertices + f,
        Origin::Edge(e) => vertices + faces + e,
    }
}

// The number of each point in the whole next level, and the point of each such number.
fn number_points(
    alloc: Global,
    vertices: u32,
    faces: u32,
    edges: u32,
    origins: &[Origin],
) -> Result<(Vec<u32>, Vec<u32>), Memory>
    requires within { All (IsOriginWithin vertices faces edges) (map origin_of origins.now) }
    requires once { AllPairs (λ a b. a ≢ b) (map origin_of origins.now) }
    requires whole { vertices + faces + edges < 2 ^ 32 }
    requires few { length origins.now < 2 ^ 32 }
    ensures { IfOk result (λ made. AreNumbered vertices faces edges (map origin_of origins.now) made.0.items made.1.items) }
{
    let limit = (vertices + faces + edges) as usize;
    let mut numbers = Vec::with_capacity(alloc, origins.len())?;
    let mut points = vec![in alloc; NOWHERE; limit]?;
    for (p, origin) in origins.iter().enumerate() {
        let number = number_from(*origin, vertices, faces);
        numbers.push_reserved(number);
        points[number as usize] = p as u32;
    }
    Ok((numbers, points))
}

// The child face of each corner of all faces. The corners of a face begin at its start.
fn place_faces(
    alloc: Global,
    starts: &[u32],
    corners: u32,
    places: &[FacePlace],
) -> Result<Vec<u32>, Memory>
    requires faces { All (λ place. place.0 < length starts.now) (map place_of places.now) }
    requires within { All (λ place. corner_number starts.now place < corners) (map place_of places.now) }
    requires once { AllPairs (λ a b. a ≢ b) (map (corner_number starts.now) (map place_of places.now)) }
    requires few { length places.now < 2 ^ 32 }
    ensures inverse { IfOk result (λ made. IsInverse (map (corner_number starts.now) (map place_of places.now)) made.items) }
    ensures count { IfOk result (λ made. length made.items ≡ corners) }
{
    let mut child_faces = vec![in alloc; NOWHERE; corners as usize]?;
    for (f, place) in places.iter().enumerate() {
        child_faces[starts[place.face as usize] as usize + place.corner as usize] = f as u32;
    }
    Ok(child_faces)
}

// The tables of a child that is this level.
pub(crate) fn tables_of(
    alloc: Global,
    parent: &Level,
    level: &Level,
    origins: &[Origin],
    places: &[FacePlace],
) -> Result<ChildTables, Memory>
    requires { IsChild parent.now level.now (map origin_of origins.now) (map place_of places.now) }
    ensures same { IfOk result (λ t. child_in level.now t ≡ child_of parent.now level.now (map origin_of origins.now) (map place_of places.now)) }
    ensures tables { IfOk result (λ t. AreOfChild level.now t) }
{
    parent.facts();
    level.facts();
    let (vertices, faces) = (parent.points(), parent.faces());
    let starts = Vec::from_slice(alloc, parent.corner_starts())?;
    let child_faces = place_faces(alloc, &starts, starts[faces as usize], places)?;
    let (numbers, points) = number_points(alloc, vertices, faces, parent.edges(), origins)?;
    Ok(ChildTables {
        vertices,
        faces,
        numbers,
        points,
        starts,
        child_faces,
    })
}
