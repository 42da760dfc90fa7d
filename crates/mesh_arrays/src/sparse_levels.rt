//! The numbers of points and faces of each level.

ghost use Rattle.std.specs.Prelude.{◌≡◌, ◌≤◌, length, map};
ghost use Rattle.mesh_arrays.specs.SparseFlat.{face_count, point_count, with_front};

use ratio128::Point3;
use sparse_level::SparseValues;

/// Writes the number of points and the number of faces of each level.
///
/// Each array has at least one place for each level. The call leaves later places unchanged.
pub(crate) fn put_level_counts(
    levels: &[SparseValues<Point3>],
    level_points: &mut [u32],
    level_faces: &mut [u32],
)
    requires points_fit { length levels.now ≤ length level_points.old }
    requires faces_fit { length levels.now ≤ length level_faces.old }
    ensures points { level_points.new ≡ with_front (map point_count levels.now) level_points.old }
    ensures faces { level_faces.new ≡ with_front (map face_count levels.now) level_faces.old }
    ensures points_len { length level_points.new ≡ length level_points.old }
    ensures faces_len { length level_faces.new ≡ length level_faces.old }
{
    for k in 0..levels.len() {
        level_points[k] = levels[k].faces.points();
        level_faces[k] = levels[k].faces.len();
    }
}
