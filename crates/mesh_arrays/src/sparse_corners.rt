//! The corners of faces.

ghost use Rattle.std.specs.Prelude.{◌≡◌, ◌≤◌, length};
ghost use Rattle.std.specs.List.{sum_by};
ghost use Rattle.mesh_arrays.specs.SparseFlat.{corner_count, corners_in, corners_of, level_corners, with_front};

use flat_arrays::put_items;
use ratio128::Point3;
use sparse_level::{SparseFaces, SparseValues};

// Fills an array with the corners of the faces of a level, face by face.
fn fill_corners(level: &SparseFaces, out: &mut [u32])
    requires fits { length out.old ≡ corners_in level.now }
    ensures { out.new ≡ level_corners level.now }
{
    let mut at = 0;
    for f in 0..level.len() {
        let corners = level.corners(f);
        put_items(out, at, corners);
        at += corners.len();
    }
}

/// Writes the corners of the faces of all levels, level by level, as numbers of points of their own level.
///
/// The array has at least one place for each corner. The call leaves later places unchanged.
pub(crate) fn put_corners(levels: &[SparseValues<Point3>], out: &mut [u32])
    requires fits { sum_by corner_count levels.now ≤ length out.old }
    ensures corners { out.new ≡ with_front (corners_of levels.now) out.old }
    ensures len { length out.new ≡ length out.old }
{
    let mut at = 0;
    for level in levels {
        let len = level.faces.corner_count() as usize;
        fill_corners(&level.faces, &mut out[at..at + len]);
        at += len;
    }
}
