//! The corners whose child faces are present, with the number and the mark of each child face.

ghost use Rattle.std.specs.Prelude.{◌≡◌, ℕ, ◌<◌, ◌≤◌, ◌++◌, false, List, [], ◌∷◌, length, map, get_or, IfOk, OnOk, if◌then◌else◌};
ghost use Rattle.std.specs.List.{All, count_by};
ghost use Rattle.level_topology.specs.ChildTables.{place_of};
ghost use Rattle.sparse_laws.specs.NextSparse.{next_places, uniform_child};
ghost use Rattle.sparse_level.specs.View.{level_of};
ghost use Rattle.subdiv_model.specs.Polygons.{polygon_at};
ghost use Rattle.sparse_level.specs.Places.{marks_on, marked_corners, AreWithin};

use crate::sparse::SparseLevel;
use child_slots::first_child_of;
use level_topology::{FacePlace, Level};
use ratio128::Memory;
use std::alloc::Global;

// Returns the number of a face's corners that have a marked vertex.
fn count_corners(corners: &[u32], on: &[bool]) -> u64
    requires { All (λ v. v < length on.now) corners.now }
    ensures { result ≡ count_by (λ v. get_or on.now v false) corners.now }
{
    let mut count = 0;
    for v in corners {
        count += u64::from(on[*v as usize]);
    }
    count
}

/// Returns the number of corners of faces that have a marked vertex. The call takes no memory.
pub fn count_places(level: &Level, on: &[bool]) -> u64
    requires { length on.now ≡ level.now.level.point_count }
    ensures { (selected : List ℕ) → on.now ≡ marks_on level.now.level selected
        → result ≡ length (next_places level.now.level.polygons selected) }
{
    level.facts();
    let mut count = 0;
    for f in 0..level.faces() {
        count += count_corners(level.face_vertices(f), on);
    }
    count
}

// Adds a place, if it is marked.
fn put_place(places: &mut Vec<FacePlace>, place: FacePlace, is_marked: bool) -> Result<(), Memory>
    ensures { OnOk result (places.new.items ≡ places.old.items ++ (if is_marked then place ∷ [] else [])) }
{
    if is_marked {
        places.push(place)?;
    }
    Ok(())
}

// Adds the corners of a face that have a marked vertex.
fn put_corners(
    level: &Level,
    on: &[bool],
    f: u32,
    places: &mut Vec<FacePlace>,
) -> Result<(), Memory>
    requires marks { length on.now ≡ level.now.level.point_count }
    requires known { f < length level.now.level.polygons }
    ensures { OnOk result (map place_of places.new.items ≡ map place_of places.old.items ++ marked_corners on.now f (polygon_at level.now.level.polygons f)) }
{
    level.facts();
    let corners = level.face_vertices(f);
    for c in 0..corners.len() {
        let corner = c as u32;
        put_place(
            places,
            FacePlace { face: f, corner },
            on[corners[c] as usize],
        )?;
    }
    Ok(())
}

/// Returns the corners of faces that have a marked vertex, face by face. Each place is a face and a corner, counted from 0.
/// The list reserves `count` places at the start.
///
/// Reports `Memory` where memory runs out.
pub fn put_places(
    alloc: Global,
    level: &Level,
    on: &[bool],
    count: u32,
) -> Result<Vec<FacePlace>, Memory>
    requires { length on.now ≡ level.now.level.point_count }
    ensures { (selected : List ℕ) → on.now ≡ marks_on level.now.level selected
        → IfOk result (λ places. map place_of places.items ≡ next_places level.now.level.polygons selected) }
{
    level.facts();
    let mut places = Vec::with_capacity(alloc, count as usize)?;
    for f in 0..level.faces() {
        put_corners(level, on, f, &mut places)?;
    }
    Ok(places)
}

// Returns the number in the uniform level of the child face of a corner.
fn child_number(sparse: &SparseLevel, place: FacePlace) -> u64
    requires { place.corner < length (polygon_at sparse.now.topology.level.polygons place.face) }
    ensures { result ≡ uniform_child (level_of sparse.now) (place_of place) }
{
    let level = sparse.level();
    sparse.facts();
    level.facts();
    if sparse.depth() == 0 {
        u64::from(first_child_of(level, place.face) + place.corner)
    } else {
        4 * sparse.number(place.face) + u64::from(place.corner)
    }
}

/// Returns the number of each child face in the uniform level, counted from 0.
///
/// Reports `Memory` where memory runs out.
pub fn put_numbers(
    alloc: Global,
    sparse: &SparseLevel,
    places: &[FacePlace],
) -> Result<Vec<u64>, Memory>
    requires { AreWithin sparse.now.topology.level (map place_of places.now) }
    ensures { IfOk result (λ numbers. numbers.items ≡ map (uniform_child (level_of sparse.now)) (map place_of places.now)) }
{
    let mut numbers = Vec::with_capacity(alloc, places.len())?;
    for place in places {
        numbers.push(child_number(sparse, *place))?;
    }
    Ok(numbers)
}

/// Returns for each place the mark of its face.
///
/// Reports `Memory` where memory runs out.
pub fn put_inner(
    alloc: Global,
    selected: &[bool],
    places: &[FacePlace],
) -> Result<Vec<bool>, Memory>
    requires { (i : ℕ) → i < length places.now → (get_or (map place_of places.now) i (0, 0)).0 < length selected.now }
    ensures { IfOk result (λ inner. inner.items ≡ map (λ place. get_or selected.now place.0 false) (map place_of places.now)) }
{
    let mut inner = Vec::with_capacity(alloc, places.len())?;
    for place in places {
        inner.push(selected[place.face as usize])?;
    }
    Ok(inner)
}
