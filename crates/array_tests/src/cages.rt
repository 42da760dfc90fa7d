//! Meshes in arrays that several tests share.

use flat_arrays::Wide;
use mesh_arrays::{MeshArrays, WidePoint};

pub(crate) const ONE: Wide = Wide { low: 1, high: 0 };

pub(crate) const MINUS_ONE: Wide = Wide {
    low: u64::MAX,
    high: u64::MAX,
};

const CUBE_POINTS: &[WidePoint] = &[
    WidePoint {
        x: MINUS_ONE,
        y: MINUS_ONE,
        z: ONE,
    },
    WidePoint {
        x: ONE,
        y: MINUS_ONE,
        z: ONE,
    },
    WidePoint {
        x: MINUS_ONE,
        y: ONE,
        z: ONE,
    },
    WidePoint {
        x: ONE,
        y: ONE,
        z: ONE,
    },
    WidePoint {
        x: MINUS_ONE,
        y: ONE,
        z: MINUS_ONE,
    },
    WidePoint {
        x: ONE,
        y: ONE,
        z: MINUS_ONE,
    },
    WidePoint {
        x: MINUS_ONE,
        y: MINUS_ONE,
        z: MINUS_ONE,
    },
    WidePoint {
        x: ONE,
        y: MINUS_ONE,
        z: MINUS_ONE,
    },
];

const CUBE_SIZES: &[u32] = &[4, 4, 4, 4, 4, 4];

const CUBE_CORNERS: &[u32] = &[
    0, 1, 3, 2, 2, 3, 5, 4, 4, 5, 7, 6, 6, 7, 1, 0, 1, 7, 5, 3, 6, 0, 2, 4,
];

// Ten points in one place.
const POINTS: &[WidePoint] = &[WidePoint {
    x: ONE,
    y: ONE,
    z: ONE,
}; 10];

const TRIANGLE_POINTS: &[WidePoint] = &[
    WidePoint {
        x: ONE,
        y: ONE,
        z: ONE,
    },
    WidePoint {
        x: MINUS_ONE,
        y: ONE,
        z: ONE,
    },
    WidePoint {
        x: ONE,
        y: MINUS_ONE,
        z: ONE,
    },
];

// A mesh without tags and texture, over the denominator 1.
macro_rules! untagged {
    ($points:ident, $sizes:expr, $corners:expr) => {
        MeshArrays {
            points: $points,
            scale: ONE,
            texture: &[],
            texture_scale: ONE,
            face_sizes: $sizes,
            corners: $corners,
            texture_corners: &[],
            creases: &[],
            corner_tags: &[],
            holes: &[],
            boundary: 2,
            method: 0,
        }
    };
}

// A cube from -1 to 1.
const CUBE: &MeshArrays<'static> = &untagged!(CUBE_POINTS, CUBE_SIZES, CUBE_CORNERS);

pub(crate) fn cube() -> &'static MeshArrays<'static> {
    CUBE
}

const TRIANGLE: &MeshArrays<'static> = &untagged!(TRIANGLE_POINTS, &[3], &[0, 1, 2]);

pub(crate) fn triangle() -> &'static MeshArrays<'static> {
    TRIANGLE
}

const TEN_POINTS: &MeshArrays<'static> = &untagged!(POINTS, &[], &[]);

fn ten_points() -> &'static MeshArrays<'static> {
    TEN_POINTS
}

// Faces over ten points.
pub(crate) fn faces(face_sizes: &'static [u32], corners: &'static [u32]) -> MeshArrays<'static> {
    MeshArrays {
        face_sizes,
        corners,
        ..*ten_points()
    }
}
