//! The channel points at the boundary of the cut mesh.

ghost use Rattle.std.specs.Prelude.{◌≡◌, ◌+◌, ◌<◌, ◌^◌, true, false, length, get_or, slice_set, replicate, IfOk};
ghost use Rattle.face_varying.specs.Kept.{first_ends, ends_before, with_ends_of, with_ends};

use level_topology::{Level, corner_after};
use ratio128::Memory;
use std::alloc::Global;

// Marks a point, if there is such a point.
fn mark_point(marks: &mut Vec<bool>, point: u32)
    ensures { marks.new.items ≡ slice_set marks.old.items point true }
{
    if (point as usize) < marks.len() {
        marks[point as usize] = true;
    }
}

// Marks the ends of a side, if the faces at its edge are apart.
fn mark_ends(marks: &mut Vec<bool>, start: u32, end: u32, is_apart: bool)
    ensures { marks.new.items ≡ with_ends_of ((start, end), is_apart) marks.old.items }
{
    if is_apart {
        mark_point(marks, start);
        mark_point(marks, end);
    }
}

// Returns the point of the corner with this place among all corners.
fn point_at(numbers: &[u32], place: usize) -> u32
    ensures { result ≡ get_or numbers.now place 0 }
{
    numbers.get(place).copied().unwrap_or(0)
}

// Returns whether the faces at an edge are apart.
fn is_apart(apart: &[bool], edge: u32) -> bool
    ensures { result ≡ get_or apart.now edge false }
{
    apart.get(edge as usize).copied().unwrap_or(false)
}

// Marks the ends of the sides of a face at which the faces are apart. `edges` are the numbers of the face's edges in the mesh.
// `start` is the place of its first corner among all corners.
fn mark_face(marks: &mut Vec<bool>, apart: &[bool], numbers: &[u32], start: usize, edges: &[u32])
    requires few { start + length edges.now < 2 ^ 32 }
    ensures { marks.new.items ≡ with_ends (first_ends apart.now numbers.now start edges.now (length edges.now)) marks.old.items }
{
    for c in 0..edges.len() {
        let first = point_at(numbers, start + c);
        let last = point_at(numbers, start + corner_after(edges.len(), c));
        mark_ends(marks, first, last, is_apart(apart, edges[c]));
    }
}

// Returns marks of the points that are an end of a side at which the faces are apart.
pub(crate) fn end_points(
    alloc: Global,
    level: &Level,
    apart: &[bool],
    numbers: &[u32],
    points: usize,
) -> Result<Vec<bool>, Memory>
    ensures { IfOk result (λ marks. marks.items ≡ with_ends (ends_before level.now.level apart.now numbers.now (length level.now.level.polygons)) (replicate points false)) }
{
    level.facts();
    let mut marks = vec![in alloc; false; points]?;
    for f in 0..level.faces() {
        let start = level.corner_starts()[f as usize] as usize;
        mark_face(&mut marks, apart, numbers, start, level.face_edges(f));
    }
    Ok(marks)
}
