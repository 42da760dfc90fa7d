//! Sparse levels in the arrays of a caller.

ghost use Rattle.std.specs.Prelude.{◌≡◌, ◌≤◌, length, true, false};
ghost use Rattle.std.specs.List.{All};
ghost use Rattle.mesh_arrays.specs.SparsePlaces as spec;

use crate::sparse_corners::put_corners;
use crate::sparse_counts::{SparseCounts, sparse_counts_of};
use crate::sparse_faces::put_faces;
use crate::sparse_levels::put_level_counts;
use crate::sparse_points::put_points;
use flat_arrays::Wide;
use ratio128::Point3;
use sparse_level::SparseValues;

/// The arrays of a caller for sparse levels, from level 0 on.
#[repr(C)]
#[derive(Drop)]
pub struct SparsePlaces<'a> {
    /// For each level its number of points.
    pub level_points: &'a mut [u32],
    /// For each level its number of faces.
    pub level_faces: &'a mut [u32],
    /// The kind of each face, level by level: 0 for a hole, 1 for a face whose parent is not selected, 2 for a selected face, 3 for
    /// any other face.
    pub kinds: &'a mut [u8],
    /// For each face its number in the uniform level, counted from 0.
    pub numbers: &'a mut [u64],
    /// For each face its number of corners.
    pub sizes: &'a mut [u32],
    /// The corners of all faces, face by face, as numbers of points of their own level, counted from 0.
    pub corners: &'a mut [u32],
    /// The three numerators of each point, x, y and z, level by level, in two's complement.
    pub numerators: &'a mut [Wide],
    /// The denominator of each point, times the common factor.
    pub denominators: &'a mut [Wide],
}

// Returns whether each array is long enough.
fn are_long_enough(counts: &SparseCounts, places: &SparsePlaces) -> bool
    ensures { result ≡ spec.are_long_enough counts.now places.now }
{
    counts.levels as u64 <= places.level_points.len() as u64
        && counts.levels as u64 <= places.level_faces.len() as u64
        && counts.faces <= places.kinds.len() as u64
        && counts.faces <= places.numbers.len() as u64
        && counts.faces <= places.sizes.len() as u64
        && counts.corners <= places.corners.len() as u64
        && counts.points <= places.numerators.len() as u64 / 3
        && counts.points <= places.denominators.len() as u64
}

/// Writes sparse levels to the front of the arrays, and returns whether it did. It returns `false` and writes nothing if some
/// array is too short. The call leaves later places unchanged.
///
/// There are at most 11 levels, and each has a value for each of its points. A coordinate is a numerator over the point's
/// denominator times `common`; that product is at least 1 and at most 2^126 - 1. Each numerator is any `i128` but the least.
pub fn put_sparse(levels: &[SparseValues<Point3>], common: u128, places: &mut SparsePlaces) -> bool
    requires few { length levels.now ≤ 11 }
    requires put { All (spec.CanLevelBePut common) levels.now }
    ensures long_enough { result ≡ spec.are_long_enough (spec.counts_of levels.now) places.old }
    ensures written { result ≡ true → spec.IsWritten levels.now common places.old places.new }
    ensures kept { result ≡ false → places.new ≡ places.old }
    ensures places { spec.AreSamePlaces places.old places.new }
{
    if !are_long_enough(&sparse_counts_of(levels), places) {
        return false;
    }
    put_level_counts(levels, places.level_points, places.level_faces);
    put_faces(levels, places.kinds, places.numbers, places.sizes);
    put_corners(levels, places.corners);
    put_points(levels, common, places.numerators, places.denominators);
    true
}
