//! The sizes of sparse levels.

ghost use Rattle.std.specs.Prelude.{◌≡◌, ◌≤◌, length};
ghost use Rattle.mesh_arrays.specs.SparsePlaces as spec;

use ratio128::Point3;
use sparse_level::SparseValues;

/// The sizes of sparse levels. They give a caller the lengths of the arrays of `SparsePlaces`.
#[repr(C)]
#[derive(Clone, Copy, Debug, PartialEq, Eq)]
pub struct SparseCounts {
    /// The number of levels.
    pub levels: u32,
    /// The number of points of all levels together.
    pub points: u64,
    /// The number of faces of all levels together.
    pub faces: u64,
    /// The number of corners of all faces of all levels together.
    pub corners: u64,
}

/// Returns the number of levels, and the number of points, faces and corners of all levels together. There are at most 11
/// levels.
pub fn sparse_counts_of(levels: &[SparseValues<Point3>]) -> SparseCounts
    requires few { length levels.now ≤ 11 }
    ensures { result ≡ spec.counts_of levels.now }
{
    let mut points = 0;
    let mut faces = 0;
    let mut corners = 0;
    for level in levels {
        points += level.faces.points() as u64;
        faces += level.faces.len() as u64;
        corners += level.faces.corner_count() as u64;
    }
    SparseCounts {
        levels: levels.len() as u32,
        points,
        faces,
        corners,
    }
}
