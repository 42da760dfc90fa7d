//! The sparse levels of a mesh in arrays.

use crate::cages::{MINUS_ONE, triangle};
use array_answers::{FaultRecord, SparseRequest, sparse_of_arrays};
use flat_arrays::Wide;
use mesh_arrays::{SparseCounts, SparsePlaces, put_sparse, sparse_counts_of};
use std::alloc::Global;

const ZERO: Wide = Wide { low: 0, high: 0 };

const OLD: Wide = Wide { low: 7, high: 7 };

// Writes the sparse levels 0 and 1 of a triangle. Returns whether it did, and their counts.
fn put_triangle(
    alloc: Global,
    places: &mut SparsePlaces,
) -> Result<(bool, SparseCounts), FaultRecord> {
    let request = SparseRequest {
        depth: 1,
        select: 1,
    };
    let sparse = sparse_of_arrays(alloc, triangle(), &request)?;
    let counts = sparse_counts_of(&sparse.levels);
    Ok((put_sparse(&sparse.levels, sparse.common, places), counts))
}

const COUNTS: SparseCounts = SparseCounts {
    levels: 2,
    points: 10,
    faces: 4,
    corners: 15,
};

// Level 1 begins at point 3. Its point 1 is the middle of the first edge, at 0, 1 and 1.
#[test]
fn sparse_levels_of_a_triangle_stand_one_behind_the_other(rt: HostRuntime) {
    let mut level_points = [9u32; 3];
    let mut level_faces = [9u32; 3];
    let mut kinds = [9u8; 5];
    let mut numbers = [9u64; 5];
    let mut sizes = [9u32; 5];
    let mut corners = [9u32; 16];
    let mut numerators = [OLD; 31];
    let mut denominators = [OLD; 11];
    let mut places = SparsePlaces {
        level_points: &mut level_points,
        level_faces: &mut level_faces,
        kinds: &mut kinds,
        numbers: &mut numbers,
        sizes: &mut sizes,
        corners: &mut corners,
        numerators: &mut numerators,
        denominators: &mut denominators,
    };
    let put = put_triangle(rt.alloc(), &mut places);
    assert_eq!(rt; put, Ok((true, COUNTS)));
    assert_eq!(rt; (level_points, level_faces), ([3, 7, 9], [1, 3, 9]));
    assert_eq!(rt; (kinds, numbers), ([2, 3, 3, 3, 9], [0, 0, 1, 2, 9]));
    assert_eq!(rt; sizes, [3, 4, 4, 4, 9]);
    assert_eq!(rt; corners, [0, 1, 2, 0, 1, 2, 3, 4, 5, 2, 1, 6, 3, 2, 5, 9]);
    assert_eq!(rt; (numerators[3], numerators[12]), (MINUS_ONE, ZERO));
    assert_eq!(rt;
        (numerators[13], numerators[14]),
        (denominators[4], denominators[4])
    );
    assert_eq!(rt; (numerators[30], denominators[10]), (OLD, OLD));
}
