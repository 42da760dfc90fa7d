//! Meshes in arrays.

use crate::cages::{MINUS_ONE, ONE};
use flat_arrays::Wide;
use mesh_arrays::{
    ArraysFault, MeshArrays, MeshCounts, MeshOptions, MeshPlaces, SharpEdge, SharpPoint, WidePoint,
    WideValue, are_long_enough, counts_of, mesh_of_arrays, options_of, put_mesh,
};
use raw_mesh::BadPart;
use std::alloc::Global;

const ZERO: Wide = Wide { low: 0, high: 0 };

const TWO: Wide = Wide { low: 2, high: 0 };

const THREE: Wide = Wide { low: 3, high: 0 };

const POINTS: &[WidePoint] = &[
    WidePoint {
        x: MINUS_ONE,
        y: ZERO,
        z: ONE,
    },
    WidePoint {
        x: THREE,
        y: MINUS_ONE,
        z: ZERO,
    },
    WidePoint {
        x: ONE,
        y: TWO,
        z: THREE,
    },
];

const TEXTURE: &[WideValue] = &[WideValue {
    u: MINUS_ONE,
    v: TWO,
}];

const FACE_SIZES: &[u32] = &[3];

const CORNERS: &[u32] = &[2, 0, 1];

const TEXTURE_CORNERS: &[u32] = &[0, 0, 0];

const CREASES: &[SharpEdge] = &[SharpEdge {
    a: 0,
    b: 2,
    sharpness_num: 5,
    sharpness_den: 2,
}];

const CORNER_TAGS: &[SharpPoint] = &[SharpPoint {
    point: 1,
    sharpness_num: 1,
    sharpness_den: 4,
}];

const HOLES: &[u32] = &[0];

// A triangle with a crease, a sharp corner, holes, and texture over 1.
const TAGGED_TRIANGLE: &MeshArrays<'static> = &MeshArrays {
    points: POINTS,
    scale: TWO,
    texture: TEXTURE,
    texture_scale: ONE,
    face_sizes: FACE_SIZES,
    corners: CORNERS,
    texture_corners: TEXTURE_CORNERS,
    creases: CREASES,
    corner_tags: CORNER_TAGS,
    holes: HOLES,
    boundary: 2,
    method: 1,
};

fn tagged_triangle() -> &'static MeshArrays<'static> {
    TAGGED_TRIANGLE
}

// Writes the triangle into other arrays if they are long enough. Returns its counts and options, and whether they are.
fn put_triangle(
    alloc: Global,
    places: &mut MeshPlaces,
) -> Result<(MeshCounts, MeshOptions, bool), ArraysFault> {
    let mesh = mesh_of_arrays(alloc, tagged_triangle())?;
    let counts = counts_of(&mesh);
    let fits = are_long_enough(&counts, places);
    if fits {
        put_mesh(&mesh, places);
    }
    Ok((counts, options_of(&mesh), fits))
}

// What fills the arrays before the call.
const NO_POINT: WidePoint = WidePoint {
    x: THREE,
    y: THREE,
    z: THREE,
};

const NO_VALUE: WideValue = WideValue { u: THREE, v: THREE };

const NO_CREASE: SharpEdge = SharpEdge {
    a: 9,
    b: 9,
    sharpness_num: 9,
    sharpness_den: 9,
};

const NO_CORNER_TAG: SharpPoint = SharpPoint {
    point: 9,
    sharpness_num: 9,
    sharpness_den: 9,
};

const COUNTS: MeshCounts = MeshCounts {
    points: 3,
    texture: 1,
    faces: 1,
    corners: 3,
    texture_corners: 3,
    creases: 1,
    corner_tags: 1,
    holes: 1,
};

const OPTIONS: MeshOptions = MeshOptions {
    scale: TWO,
    texture_scale: ONE,
    boundary: 2,
    method: 1,
};

// Each array has one place to spare.
#[test]
fn a_mesh_goes_into_other_arrays(rt: HostRuntime) {
    let mut points = [NO_POINT; 4];
    let mut texture = [NO_VALUE; 2];
    let mut face_sizes = [9u32; 2];
    let mut corners = [9u32; 4];
    let mut texture_corners = [9u32; 4];
    let mut creases = [NO_CREASE; 2];
    let mut corner_tags = [NO_CORNER_TAG; 2];
    let mut holes = [9u32; 2];
    let mut places = MeshPlaces {
        points: &mut points,
        texture: &mut texture,
        face_sizes: &mut face_sizes,
        corners: &mut corners,
        texture_corners: &mut texture_corners,
        creases: &mut creases,
        corner_tags: &mut corner_tags,
        holes: &mut holes,
    };
    let put = put_triangle(rt.alloc(), &mut places);
    assert_eq!(rt; put, Ok((COUNTS, OPTIONS, true)));
    let wanted = tagged_triangle();
    assert_eq!(rt; points.strip_suffix(&[NO_POINT]), Some(wanted.points));
    assert_eq!(rt; texture.strip_suffix(&[NO_VALUE]), Some(wanted.texture));
    assert_eq!(rt; face_sizes.strip_suffix(&[9]), Some(wanted.face_sizes));
    assert_eq!(rt; corners.strip_suffix(&[9]), Some(wanted.corners));
    assert_eq!(rt;
        texture_corners.strip_suffix(&[9]),
        Some(wanted.texture_corners)
    );
    assert_eq!(rt; creases.strip_suffix(&[NO_CREASE]), Some(wanted.creases));
    assert_eq!(rt;
        corner_tags.strip_suffix(&[NO_CORNER_TAG]),
        Some(wanted.corner_tags)
    );
    assert_eq!(rt; holes.strip_suffix(&[9]), Some(wanted.holes));
}

// The fault of arrays that are not a mesh.
fn fault_of(alloc: Global, arrays: &MeshArrays) -> Option<ArraysFault> {
    match mesh_of_arrays(alloc, arrays) {
        Ok(_) => None,
        Err(fault) => Some(fault),
    }
}

const BAD_HOLES: &[u32] = &[0, 5];

const BAD_CORNER_TAGS: &[SharpPoint] = &[SharpPoint {
    point: 0,
    sharpness_num: 1,
    sharpness_den: 0,
}];

const BAD_CREASES: &[SharpEdge] = &[SharpEdge {
    a: 0,
    b: 2,
    sharpness_num: 1,
    sharpness_den: (1 << 60) + 1,
}];

#[test]
fn the_first_fault_comes_with_its_place(rt: HostRuntime) {
    let hole = MeshArrays {
        holes: BAD_HOLES,
        ..*tagged_triangle()
    };
    let corner = MeshArrays {
        corner_tags: BAD_CORNER_TAGS,
        ..hole
    };
    let crease = MeshArrays {
        creases: BAD_CREASES,
        ..corner
    };
    let method = MeshArrays {
        method: 2,
        ..crease
    };
    for (arrays, fault) in [
        (hole, ArraysFault::Part(BadPart::Hole(1))),
        (corner, ArraysFault::CornerSharpness(0)),
        (crease, ArraysFault::CreaseSharpness(0)),
        (method, ArraysFault::Method),
    ] {
        assert_eq!(rt; fault_of(rt.alloc(), &arrays), Some(fault));
    }
}
