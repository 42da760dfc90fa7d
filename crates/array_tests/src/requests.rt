//! Requests for rows of meshes in arrays and for their texture.

use crate::cages::cube;
use array_answers::{BAD_ARGUMENT, FaultRecord, RowRequest, rows_of_arrays, texture_of_arrays};
use flat_arrays::Wide;
use mesh_arrays::{LevelCounts, MeshArrays, WideValue};
use ratio128::Point2;
use std::alloc::Global;
use table_arrays::TableCounts;

const N0: Wide = Wide { low: 0, high: 0 };

const N1: Wide = Wide { low: 1, high: 0 };

const N2: Wide = Wide { low: 2, high: 0 };

const N3: Wide = Wide { low: 3, high: 0 };

const N4: Wide = Wide { low: 4, high: 0 };

const TEXTURE: &[WideValue] = &[
    WideValue { u: N1, v: N0 },
    WideValue { u: N2, v: N0 },
    WideValue { u: N0, v: N1 },
    WideValue { u: N1, v: N1 },
    WideValue { u: N2, v: N1 },
    WideValue { u: N3, v: N1 },
    WideValue { u: N0, v: N2 },
    WideValue { u: N1, v: N2 },
    WideValue { u: N2, v: N2 },
    WideValue { u: N3, v: N2 },
    WideValue { u: N1, v: N3 },
    WideValue { u: N2, v: N3 },
    WideValue { u: N1, v: N4 },
    WideValue { u: N2, v: N4 },
];

fn texture() -> &'static [WideValue] {
    TEXTURE
}

const TEXTURE_CORNERS: &[u32] = &[
    3, 4, 8, 7, 7, 8, 11, 10, 10, 11, 13, 12, 0, 1, 4, 3, 4, 5, 9, 8, 2, 3, 7, 6,
];

fn texture_corners() -> &'static [u32] {
    TEXTURE_CORNERS
}

// A cube whose faces are unfolded into a cross, over 4.
fn unfolded_cube() -> MeshArrays<'static> {
    MeshArrays {
        texture: texture(),
        texture_scale: N4,
        texture_corners: texture_corners(),
        ..*cube()
    }
}

const BAD: FaultRecord = FaultRecord {
    status: BAD_ARGUMENT,
    kind: 0,
    first: 0,
    second: 0,
};

// The kind, the depth, the seams, the face and the grid of a request; the numbers of control points and rows of its table, or its fault.
type Asked = ([u32; 5], Result<(u32, u32), FaultRecord>);

const ASKED: &[Asked] = &[
    // Points, limit points, the patch of a face, and texture.
    ([0, 1, 9, 9, 9], Ok((8, 26))),
    ([1, 1, 0, 0, 0], Ok((8, 26))),
    ([2, 2, 0, 2, 3], Ok((8, 16))),
    ([3, 1, 1, 0, 0], Ok((14, 39))),
    // A kind, depths, a face, a grid and seams out of their ranges.
    ([4, 1, 0, 0, 0], Err(BAD)),
    ([0, 11, 0, 0, 0], Err(BAD)),
    ([1, 0, 0, 0, 0], Err(BAD)),
    ([2, 2, 0, 4194304, 1], Err(BAD)),
    ([2, 2, 0, 2, 0], Err(BAD)),
    ([3, 1, 4, 0, 0], Err(BAD)),
];

fn asked() -> &'static [Asked] {
    ASKED
}

// The numbers of control points and rows of the requested table.
fn sizes_of(alloc: Global, request: [u32; 5]) -> Result<(u32, u32), FaultRecord> {
    let [kind, depth, seams, face, grid] = request;
    let request = RowRequest {
        kind,
        depth,
        seams,
        face,
        grid,
    };
    let rows = rows_of_arrays(alloc, &unfolded_cube(), &request)?;
    Ok((rows.controls(), rows.rows()))
}

#[test]
fn tables_have_the_rows_that_are_asked_for(rt: HostRuntime) {
    for (request, sizes) in asked() {
        assert_eq!(rt; sizes_of(rt.alloc(), *request), *sizes);
    }
}

// The counts of the level and of the table of a texture, the common denominator of its values, and the first of them.
type Texture = (LevelCounts, TableCounts, u128, Option<Point2>);

fn texture_of_cube(alloc: Global) -> Result<Texture, FaultRecord> {
    let found = texture_of_arrays(alloc, &unfolded_cube(), 2, 1)?;
    let texture = &found.texture;
    Ok((
        mesh_arrays::level_counts_of(&texture.level),
        table_arrays::counts_of(&texture.table),
        found.common,
        texture.values.first().copied(),
    ))
}

// An edge inside the cross has 6 entries and one of its boundary 2. Each point of the boundary stays, and each face has 4 entries.
#[test]
fn a_texture_has_its_level_its_table_and_its_values(rt: HostRuntime) {
    let level = LevelCounts {
        points: 39,
        edges: 62,
        faces: 24,
        corners: 96,
    };
    let table = TableCounts {
        controls: 14,
        rows: 39,
        entries: 96,
    };
    let first = Point2 { u: 1, v: 1 };
    assert_eq!(rt;
        texture_of_cube(rt.alloc()),
        Ok((level, table, 4, Some(first)))
    );
}
