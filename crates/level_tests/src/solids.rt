// Solids for tables of masks, and the types of the rows of such tables.

// A sharpness as a fraction.
pub type Fraction = (u64, u64);

// The ends of an edge, and its sharpness.
pub type SharpEdge = (u32, u32, Fraction);

// The number of points, and the corners of each face.
#[derive(Clone, Copy)]
pub struct Solid<'a> {
    pub points: u32,
    pub faces: &'a [&'a [u32]],
}

// A solid with its sharp edges, and the point whose lists are complete, with its sharpness.
pub type Mesh = (&'static Solid<'static>, &'static [SharpEdge], u32, Fraction);

pub const ZERO: Fraction = (0, 1);

pub const QUARTER: Fraction = (1, 4);

pub const HALF: Fraction = (1, 2);

pub const ONE: Fraction = (1, 1);

pub const THREE_HALVES: Fraction = (3, 2);

pub const TWO: Fraction = (2, 1);

pub const THREE: Fraction = (3, 1);

pub const INFINITE: Fraction = (10, 1);

// The greatest denominator, and half of it.
pub const TOP: u64 = 1 << 60;

pub const HALF_OF_TOP: u64 = 1 << 59;

// Edge 1 runs from 1 to 3 and has the faces 0 and 4. Point 1 has the ends 0, 3 and 7 and the faces 0, 3 and 4; point 3 has
// the ends 1, 2 and 5 and the faces 0, 1 and 4.
pub const CUBE: &Solid<'static> = &Solid {
    points: 8,
    faces: &[
        &[0, 1, 3, 2],
        &[2, 3, 5, 4],
        &[4, 5, 7, 6],
        &[6, 7, 1, 0],
        &[1, 7, 5, 3],
        &[6, 0, 2, 4],
    ],
};

// Four quads over three by three points.
pub const GRID: &Solid<'static> = &Solid {
    points: 9,
    faces: &[&[0, 1, 4, 3], &[1, 2, 5, 4], &[3, 4, 7, 6], &[4, 5, 8, 7]],
};

// The edges at the rim of the grid.
pub const RIM: &[SharpEdge] = &[
    (0, 1, INFINITE),
    (1, 2, INFINITE),
    (2, 5, INFINITE),
    (5, 8, INFINITE),
    (8, 7, INFINITE),
    (7, 6, INFINITE),
    (6, 3, INFINITE),
    (3, 0, INFINITE),
];

// The edges at the rim of the grid, and the edge from 1 to the middle.
pub const RIM_AND_SPOKE: &[SharpEdge] = &[
    (0, 1, INFINITE),
    (1, 2, INFINITE),
    (2, 5, INFINITE),
    (5, 8, INFINITE),
    (8, 7, INFINITE),
    (7, 6, INFINITE),
    (6, 3, INFINITE),
    (3, 0, INFINITE),
    (1, 4, HALF),
];

// Two triangles back to back, and a point without faces.
pub const PAIR: &Solid<'static> = &Solid {
    points: 4,
    faces: &[&[0, 1, 2], &[0, 2, 1]],
};

// Two faces of ten corners back to back.
pub const DISC: &Solid<'static> = &Solid {
    points: 10,
    faces: &[
        &[0, 1, 2, 3, 4, 5, 6, 7, 8, 9],
        &[9, 8, 7, 6, 5, 4, 3, 2, 1, 0],
    ],
};

// The points 0 to 3 in a ring, 4 above them and 5 below.
pub const OCTAHEDRON: &Solid<'static> = &Solid {
    points: 6,
    faces: &[
        &[0, 1, 4],
        &[1, 2, 4],
        &[2, 3, 4],
        &[3, 0, 4],
        &[1, 0, 5],
        &[2, 1, 5],
        &[3, 2, 5],
        &[0, 3, 5],
    ],
};

// Eight triangles about point 0.
pub const WHEEL_8: &Solid<'static> = &Solid {
    points: 9,
    faces: &[
        &[0, 1, 8],
        &[0, 2, 1],
        &[0, 3, 2],
        &[0, 4, 3],
        &[0, 5, 4],
        &[0, 6, 5],
        &[0, 7, 6],
        &[0, 8, 7],
    ],
};

// Seventeen triangles about point 0.
pub const WHEEL_17: &Solid<'static> = &Solid {
    points: 18,
    faces: &[
        &[0, 1, 17],
        &[0, 2, 1],
        &[0, 3, 2],
        &[0, 4, 3],
        &[0, 5, 4],
        &[0, 6, 5],
        &[0, 7, 6],
        &[0, 8, 7],
        &[0, 9, 8],
        &[0, 10, 9],
        &[0, 11, 10],
        &[0, 12, 11],
        &[0, 13, 12],
        &[0, 14, 13],
        &[0, 15, 14],
        &[0, 16, 15],
        &[0, 17, 16],
    ],
};
