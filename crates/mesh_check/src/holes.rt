//! The faces of a mesh that are holes.

ghost use Rattle.std.specs.Prelude.{◌≡◌, ℕ, ◌<◌, ◌||◌, nat_eq, length, map, get_or, IfOk};
ghost use Rattle.std.specs.List.{filter, list_any, enumerate_from};
ghost use Rattle.subdiv_model.specs.Edges.{all_sides, is_boundary, has_end};
ghost use Rattle.subdiv_model.specs.Base.{is_base_hole};
ghost use Rattle.subdiv_model.specs.Polygons.{is_among};
ghost use Rattle.mesh_check.specs.Holes.{is_hiding};

use crate::marks::{is_marked, marks_of, no_marks, set_mark};
use ratio128::Memory;
use raw_mesh::{Boundary, RawMesh};
use std::alloc::Global;

// Returns marks for `count` points, with the mark 1 at each end of these sides.
fn end_marks(alloc: Global, count: usize, sides: &[(u32, u32)]) -> Result<Vec<u32>, Memory>
    ensures size { IfOk result (λ marks. length marks.items ≡ count) }
    ensures ends { IfOk result (λ marks. (v : ℕ) → v < count → nat_eq (get_or marks.items v 0) 1 ≡ list_any (has_end v) sides.now) }
{
    let mut marks = no_marks(alloc, count)?;
    let mut rest = sides;
    while let [side, others @ ..] = rest {
        set_mark(&mut marks, side.0);
        set_mark(&mut marks, side.1);
        rest = others;
    }
    Ok(marks)
}

// Returns the mark 1 at each point that hides its faces, from the sides at the boundary.
fn hiding_points(alloc: Global, raw: &RawMesh, boundary: &[(u32, u32)]) -> Result<Vec<u32>, Memory>
    ensures { IfOk result (λ marks. (v : ℕ) → v < length raw.now.points → nat_eq (get_or marks.items v 0) 1 ≡ is_hiding raw.now.boundary boundary.now v) }
{
    let points = raw.points().len();
    match raw.boundary() {
        Boundary::Hidden => end_marks(alloc, points, boundary),
        Boundary::EdgeOnly | Boundary::EdgeAndCorner => no_marks(alloc, points),
    }
}

// Returns whether a corner of a face has the mark 1.
fn has_marked(marks: &[u32], face: &[u32]) -> bool
    ensures { result ≡ list_any (λ v. nat_eq (get_or marks.now v 0) 1) face.now }
{
    let mut rest = face;
    while let [v, others @ ..] = rest {
        if is_marked(marks, *v) {
            return true;
        }
        rest = others;
    }
    false
}

// Returns whether a face is a hole. `named` marks the faces that tags name, and `hiding` the points that hide their faces.
fn is_hole(named: &[u32], hiding: &[u32], f: u32, face: &[u32]) -> bool
    ensures { result ≡ (nat_eq (get_or named.now f 0) 1 || list_any (λ v. nat_eq (get_or hiding.now v 0) 1) face.now) }
{
    is_marked(named, f) || has_marked(hiding, face)
}

// Returns for each face whether it is a hole, from these marks.
fn holes_by(
    alloc: Global,
    raw: &RawMesh,
    named: &[u32],
    hiding: &[u32],
) -> Result<Vec<bool>, Memory>
    requires named { (j : ℕ) → j < length raw.now.faces → nat_eq (get_or named.now j 0) 1 ≡ is_among raw.now.holes j }
    requires hiding { (v : ℕ) → v < length raw.now.points → nat_eq (get_or hiding.now v 0) 1 ≡ is_hiding raw.now.boundary (filter (is_boundary raw.now.faces) (all_sides raw.now.faces)) v }
    ensures { IfOk result (λ marks. marks.items ≡ map (is_base_hole raw.now) (enumerate_from 0 raw.now.faces)) }
{
    raw.facts();
    let mut holes = Vec::with_capacity(alloc, raw.faces() as usize)?;
    for f in 0..raw.faces() {
        holes.push(is_hole(named, hiding, f, raw.face(f)))?;
    }
    Ok(holes)
}

// Returns for each face whether it is a hole, from the sides at the boundary.
pub(crate) fn hole_marks(
    alloc: Global,
    raw: &RawMesh,
    boundary: &[(u32, u32)],
) -> Result<Vec<bool>, Memory>
    requires { boundary.now ≡ filter (is_boundary raw.now.faces) (all_sides raw.now.faces) }
    ensures { IfOk result (λ marks. marks.items ≡ map (is_base_hole raw.now) (enumerate_from 0 raw.now.faces)) }
{
    let named = marks_of(alloc, raw.faces() as usize, raw.holes())?;
    let hiding = hiding_points(alloc, raw, boundary)?;
    holes_by(alloc, raw, &named, &hiding)
}
