//! The vertices that lie on selected faces.

ghost use Rattle.std.specs.Prelude.{◌≡◌, ℕ, ◌<◌, ◌||◌, ◌&&◌, false, length, get_or, IfOk};
ghost use Rattle.std.specs.List.{All};
ghost use Rattle.subdiv_model.specs.Polygons.{has_corner, polygon_at};
ghost use Rattle.sparse_level.specs.Places.{marked, marks_on};

use level_topology::Level;
use ratio128::Memory;
use std::alloc::Global;

// Marks some vertices.
fn mark_corners(corners: &[u32], on: &mut Vec<bool>)
    requires inside { All (λ v. v < length on.old.items) corners.now }
    ensures count { length on.new.items ≡ length on.old.items }
    ensures marks { (v : ℕ) → v < length on.old.items → get_or on.new.items v false ≡ (get_or on.old.items v false || has_corner v corners.now) }
{
    for v in corners {
        on[*v as usize] = true;
    }
}

// Marks the corners of a face, if it is selected.
fn mark_face(level: &Level, f: u32, is_selected: bool, on: &mut Vec<bool>)
    requires known { f < length level.now.level.polygons }
    requires count { length on.old.items ≡ level.now.level.point_count }
    ensures count { length on.new.items ≡ level.now.level.point_count }
    ensures marks { (v : ℕ) → v < level.now.level.point_count
        → get_or on.new.items v false ≡ (get_or on.old.items v false || (is_selected && has_corner v (polygon_at level.now.level.polygons f))) }
{
    level.facts();
    if is_selected {
        mark_corners(level.face_vertices(f), on);
    }
}

/// Returns a mark for each vertex of a level: true where the vertex lies on a face that `selected` marks.
///
/// Reports `Memory` where memory runs out.
pub fn mark_points(alloc: Global, level: &Level, selected: &[bool]) -> Result<Vec<bool>, Memory>
    requires { length selected.now ≡ length level.now.level.polygons }
    ensures { IfOk result (λ on. on.items ≡ marks_on level.now.level (marked selected.now)) }
{
    let mut on = vec![in alloc; false; level.points() as usize]?;
    for f in 0..level.faces() {
        mark_face(level, f, selected[f as usize], &mut on);
    }
    Ok(on)
}
