//! The parts of meshes in arrays on which their levels lie.

use crate::cages::triangle;
use array_answers::{FaultRecord, origins_of_arrays};
use level_walk::{OriginCounts, OriginPlaces, origin_counts_of, put_origins};
use std::alloc::Global;

// Writes the origins of a triangle's level 2. Returns whether it did, and their number.
fn put_triangle(
    alloc: Global,
    places: &mut OriginPlaces,
) -> Result<(bool, OriginCounts), FaultRecord> {
    let origins = origins_of_arrays(alloc, triangle(), 2)?;
    Ok((put_origins(&origins, places), origin_counts_of(&origins)))
}

// The edges of the triangle come last: the middle of each, then both ends of each half.
#[test]
fn edges_of_a_triangle_keep_their_numbers(rt: HostRuntime) {
    let mut kinds = [9u8; 20];
    let mut numbers = [9u32; 20];
    let mut faces = [9u32; 13];
    let mut places = OriginPlaces {
        kinds: &mut kinds,
        numbers: &mut numbers,
        faces: &mut faces,
    };
    let counts = OriginCounts {
        points: 19,
        faces: 12,
    };
    assert_eq!(rt; put_triangle(rt.alloc(), &mut places), Ok((true, counts)));
    assert_eq!(rt;
        kinds,
        [0, 0, 0, 2, 1, 1, 1, 2, 2, 2, 1, 2, 2, 1, 1, 2, 1, 1, 1, 9]
    );
    assert_eq!(rt;
        numbers,
        [0, 1, 2, 0, 0, 1, 2, 0, 0, 0, 0, 0, 0, 2, 1, 0, 0, 2, 1, 9]
    );
    assert_eq!(rt; faces, [0, 0, 0, 0, 0, 0, 0, 0, 0, 0, 0, 0, 9]);
}
