//! Levels, tables and points of meshes in arrays.

use crate::cages::{cube, faces};
use array_answers::{FaultRecord, refine_arrays, refine_points};
use mesh_arrays::{LevelCounts, LevelPlaces, MeshArrays, put_level};
use ratio128::{Frac, Point3, Valued, lowest};
use std::alloc::Global;
use table_arrays::TableCounts;

// The counts of the cube's level after a step, and those of its table.
fn refined_counts(alloc: Global) -> Result<(LevelCounts, TableCounts), FaultRecord> {
    let refined = refine_arrays(alloc, cube(), 1)?;
    Ok((
        mesh_arrays::level_counts_of(&refined.composed.level),
        table_arrays::counts_of(&refined.composed.table),
    ))
}

#[test]
fn a_cube_has_26_points_after_a_step(rt: HostRuntime) {
    let level = LevelCounts {
        points: 26,
        edges: 48,
        faces: 24,
        corners: 96,
    };
    let table = TableCounts {
        controls: 8,
        rows: 26,
        entries: 152,
    };
    assert_eq!(rt; refined_counts(rt.alloc()), Ok((level, table)));
}

const FLAP_SIZES: &[u32] = &[4, 3];

const FLAP_CORNERS: &[u32] = &[0, 1, 2, 3, 2, 1, 4];

const FLAP_HOLES: &[u32] = &[1];

// A quad, and a triangle beside it that is a hole.
fn flap() -> MeshArrays<'static> {
    MeshArrays {
        holes: FLAP_HOLES,
        ..faces(FLAP_SIZES, FLAP_CORNERS)
    }
}

// Writes level 0 of the flap. Returns whether it did.
fn put_flap(alloc: Global, places: &mut LevelPlaces) -> Result<bool, FaultRecord> {
    let refined = refine_arrays(alloc, &flap(), 0)?;
    Ok(put_level(&refined.composed.level, places))
}

#[test]
fn faces_and_edges_stand_in_their_order(rt: HostRuntime) {
    let mut face_sizes = [9u32; 3];
    let mut corners = [9u32; 8];
    let mut edges = [9u32; 13];
    let mut holes = [9u8; 3];
    let mut places = LevelPlaces {
        face_sizes: &mut face_sizes,
        corners: &mut corners,
        edges: &mut edges,
        holes: &mut holes,
    };
    assert_eq!(rt; put_flap(rt.alloc(), &mut places), Ok(true));
    assert_eq!(rt; face_sizes, [4, 3, 9]);
    assert_eq!(rt; corners, [0, 1, 2, 3, 2, 1, 4, 9]);
    assert_eq!(rt; edges, [0, 1, 1, 2, 2, 3, 3, 0, 1, 4, 4, 2, 9]);
    assert_eq!(rt; holes, [0, 1, 9]);
}

// A point of the cube after a step.
fn refined_point(alloc: Global, point: usize) -> Result<Option<Valued<Point3>>, FaultRecord> {
    let refined = refine_points(alloc, cube(), 1)?;
    Ok(refined.points.get(point).copied())
}

// A point of the cage, the middle of a face and the middle of an edge on top, and a point of the cage below.
const HEIGHTS: &[(usize, Frac)] = &[
    (0, Frac { num: 5, den: 9 }),
    (8, Frac { num: 1, den: 1 }),
    (14, Frac { num: 3, den: 4 }),
    (7, Frac { num: -5, den: 9 }),
];

fn heights() -> &'static [(usize, Frac)] {
    HEIGHTS
}

#[test]
fn points_of_a_cube_are_those_of_the_masks(rt: HostRuntime) {
    for (point, height) in heights() {
        let found = refined_point(rt.alloc(), *point).expect(&rt, "the cube has a level 1");
        let at = found.expect(&rt, "the point is there");
        assert!(rt; at.den > 0 && at.value.z > i128::MIN);
        assert_eq!(rt; lowest(at.value.z, at.den), *height);
    }
}
