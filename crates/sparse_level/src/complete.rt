//! The points of the next level that have all their faces.

ghost use Rattle.std.specs.Prelude.{◌≡◌, ℕ, ◌<◌, false, List, length, map, get_or, IfOk};
ghost use Rattle.std.specs.List.{All, list_all};
ghost use Rattle.subdiv_model.specs.Child.{child_points};
ghost use Rattle.sparse_laws.specs.NextSparse.{has_all_faces};
ghost use Rattle.sparse_level.specs.Places.{marks_on};

use level_topology::Level;
use ratio128::Memory;
use std::alloc::Global;

// Returns whether all of some vertices are marked.
fn are_marked(vertices: &[u32], on: &[bool]) -> bool
    requires { All (λ v. v < length on.now) vertices.now }
    ensures { result ≡ list_all (λ v. get_or on.now v false) vertices.now }
{
    for v in vertices {
        if !on[*v as usize] {
            return false;
        }
    }
    true
}

// Returns whether every vertex that a point of the next level comes from is marked.
fn has_all_faces(level: &Level, on: &[bool], n: u32) -> bool
    requires marks { length on.now ≡ level.now.level.point_count }
    requires inside { n < child_points level.now.level.point_count level.now.level.polygons }
    ensures { (selected : List ℕ) → on.now ≡ marks_on level.now.level selected → result ≡ has_all_faces level.now.level selected n }
{
    level.facts();
    let (vertices, faces) = (level.points(), level.faces());
    if n < vertices {
        return are_marked(&[n], on);
    }
    if n - vertices < faces {
        return are_marked(level.face_vertices(n - vertices), on);
    }
    let (first, second) = level.edge_vertices(n - vertices - faces);
    are_marked(&[first, second], on)
}

/// Returns a mark for each of `points`, numbers of points of the whole next level. The mark is true where every vertex that
/// the point comes from lies on a selected face; `on` marks these vertices. All faces at such a point are present.
///
/// Reports `Memory` where memory runs out.
pub fn mark_complete(
    alloc: Global,
    level: &Level,
    on: &[bool],
    points: &[u32],
) -> Result<Vec<bool>, Memory>
    requires marks { length on.now ≡ level.now.level.point_count }
    requires inside { All (λ n. n < child_points level.now.level.point_count level.now.level.polygons) points.now }
    ensures { (selected : List ℕ) → on.now ≡ marks_on level.now.level selected
        → IfOk result (λ complete. complete.items ≡ map (has_all_faces level.now.level selected) points.now) }
{
    let mut complete = Vec::with_capacity(alloc, points.len())?;
    for n in points {
        complete.push(has_all_faces(level, on, *n))?;
    }
    Ok(complete)
}
