// Meshes with masks of their vertices.

use crate::solids::{
    CUBE, DISC, Fraction, GRID, HALF, HALF_OF_TOP, INFINITE, Mesh, OCTAHEDRON, ONE, PAIR, QUARTER,
    RIM, RIM_AND_SPOKE, THREE, THREE_HALVES, TOP, TWO, WHEEL_8, WHEEL_17, ZERO,
};

// A mesh with the mask of its point: the weights of points and of new face points.
pub struct VertexRow {
    pub mesh: Mesh,
    pub points: &'static [(u32, u128)],
    pub faces: &'static [(u32, u128)],
    pub denominator: u128,
}

const FINE: Fraction = (1, HALF_OF_TOP);

const FINEST: Fraction = (1, TOP);

// The weight of a transition just above 0: nearly the mask of the next level.
const FINE_VERTEX: u128 = 24 * (HALF_OF_TOP as u128 - 1) + 54;

const FINE_END: u128 = 8 * (HALF_OF_TOP as u128 - 1) + 9;

const FINE_FACE: u128 = 8 * (HALF_OF_TOP as u128 - 1);

const FINEST_VERTEX: u128 = 3 * (TOP as u128 - 1) + 9;

const FINEST_REST: u128 = TOP as u128 - 1;

// Meshes with masks of their vertices, by kinds of rules.
const VERTICES: &[VertexRow] = &[
    // A vertex that is sharp itself: a corner for one level, and for more.
    VertexRow {
        mesh: (CUBE, &[], 3, HALF),
        points: &[(1, 1), (2, 1), (3, 12), (5, 1)],
        faces: &[(0, 1), (1, 1), (4, 1)],
        denominator: 18,
    },
    VertexRow {
        mesh: (CUBE, &[], 3, QUARTER),
        points: &[(1, 3), (2, 3), (3, 18), (5, 3)],
        faces: &[(0, 3), (1, 3), (4, 3)],
        denominator: 36,
    },
    VertexRow {
        mesh: (CUBE, &[], 3, ONE),
        points: &[(3, 1)],
        faces: &[],
        denominator: 1,
    },
    VertexRow {
        mesh: (CUBE, &[], 3, THREE),
        points: &[(3, 1)],
        faces: &[],
        denominator: 1,
    },
    VertexRow {
        mesh: (CUBE, &[(1, 3, (3, 4))], 3, QUARTER),
        points: &[(1, 1), (2, 1), (3, 12), (5, 1)],
        faces: &[(0, 1), (1, 1), (4, 1)],
        denominator: 18,
    },
    // A rule that does not change: smooth, dart, dart to smooth, crease, corner, two edges, no
    // edge.
    VertexRow {
        mesh: (CUBE, &[], 3, ZERO),
        points: &[(1, 1), (2, 1), (3, 3), (5, 1)],
        faces: &[(0, 1), (1, 1), (4, 1)],
        denominator: 9,
    },
    VertexRow {
        mesh: (CUBE, &[(1, 3, THREE)], 3, ZERO),
        points: &[(1, 1), (2, 1), (3, 3), (5, 1)],
        faces: &[(0, 1), (1, 1), (4, 1)],
        denominator: 9,
    },
    VertexRow {
        mesh: (CUBE, &[(1, 3, HALF)], 3, ZERO),
        points: &[(1, 1), (2, 1), (3, 3), (5, 1)],
        faces: &[(0, 1), (1, 1), (4, 1)],
        denominator: 9,
    },
    VertexRow {
        mesh: (CUBE, &[(1, 3, THREE), (3, 2, THREE)], 3, ZERO),
        points: &[(1, 1), (2, 1), (3, 6)],
        faces: &[],
        denominator: 8,
    },
    VertexRow {
        mesh: (
            CUBE,
            &[(1, 3, THREE), (3, 2, THREE), (3, 5, THREE)],
            3,
            ZERO,
        ),
        points: &[(3, 1)],
        faces: &[],
        denominator: 1,
    },
    VertexRow {
        mesh: (PAIR, &[], 0, ZERO),
        points: &[(1, 1), (2, 1)],
        faces: &[(0, 1), (1, 1)],
        denominator: 4,
    },
    VertexRow {
        mesh: (PAIR, &[], 3, ZERO),
        points: &[(3, 1)],
        faces: &[],
        denominator: 1,
    },
    VertexRow {
        mesh: (DISC, &[], 9, ZERO),
        points: &[(8, 1), (0, 1)],
        faces: &[(0, 1), (1, 1)],
        denominator: 4,
    },
    VertexRow {
        mesh: (OCTAHEDRON, &[(4, 2, TWO)], 4, ZERO),
        points: &[(0, 1), (1, 1), (2, 1), (3, 1), (4, 8)],
        faces: &[(0, 1), (1, 1), (2, 1), (3, 1)],
        denominator: 16,
    },
    // Points of eight and of seventeen edges. From eight edges on a mask takes memory, and from seventeen on its ring does.
    VertexRow {
        mesh: (WHEEL_8, &[], 0, ZERO),
        points: &[
            (0, 48),
            (1, 1),
            (2, 1),
            (3, 1),
            (4, 1),
            (5, 1),
            (6, 1),
            (7, 1),
            (8, 1),
        ],
        faces: &[
            (0, 1),
            (1, 1),
            (2, 1),
            (3, 1),
            (4, 1),
            (5, 1),
            (6, 1),
            (7, 1),
        ],
        denominator: 64,
    },
    VertexRow {
        mesh: (WHEEL_17, &[], 0, ZERO),
        points: &[
            (0, 255),
            (1, 1),
            (2, 1),
            (3, 1),
            (4, 1),
            (5, 1),
            (6, 1),
            (7, 1),
            (8, 1),
            (9, 1),
            (10, 1),
            (11, 1),
            (12, 1),
            (13, 1),
            (14, 1),
            (15, 1),
            (16, 1),
            (17, 1),
        ],
        faces: &[
            (0, 1),
            (1, 1),
            (2, 1),
            (3, 1),
            (4, 1),
            (5, 1),
            (6, 1),
            (7, 1),
            (8, 1),
            (9, 1),
            (10, 1),
            (11, 1),
            (12, 1),
            (13, 1),
            (14, 1),
            (15, 1),
            (16, 1),
        ],
        denominator: 289,
    },
    // At the rim and inside.
    VertexRow {
        mesh: (GRID, RIM, 1, ZERO),
        points: &[(0, 1), (1, 6), (2, 1)],
        faces: &[],
        denominator: 8,
    },
    VertexRow {
        mesh: (GRID, RIM, 0, ZERO),
        points: &[(0, 6), (1, 1), (3, 1)],
        faces: &[],
        denominator: 8,
    },
    VertexRow {
        mesh: (GRID, RIM, 4, ZERO),
        points: &[(1, 1), (3, 1), (4, 8), (5, 1), (7, 1)],
        faces: &[(0, 1), (1, 1), (2, 1), (3, 1)],
        denominator: 16,
    },
    VertexRow {
        mesh: (GRID, RIM, 0, INFINITE),
        points: &[(0, 1)],
        faces: &[],
        denominator: 1,
    },
    VertexRow {
        mesh: (GRID, RIM, 0, HALF),
        points: &[(0, 14), (1, 1), (3, 1)],
        faces: &[],
        denominator: 16,
    },
    VertexRow {
        mesh: (GRID, RIM_AND_SPOKE, 1, ZERO),
        points: &[(0, 1), (1, 14), (2, 1)],
        faces: &[],
        denominator: 16,
    },
    VertexRow {
        mesh: (GRID, RIM_AND_SPOKE, 4, ZERO),
        points: &[(1, 1), (3, 1), (4, 8), (5, 1), (7, 1)],
        faces: &[(0, 1), (1, 1), (2, 1), (3, 1)],
        denominator: 16,
    },
    // A rule that changes: crease to smooth, crease to dart, corner to smooth by edges, corner to
    // dart, corner to crease with each pair of ends.
    VertexRow {
        mesh: (CUBE, &[(1, 3, HALF), (3, 2, HALF)], 3, ZERO),
        points: &[(1, 17), (2, 17), (3, 78), (5, 8)],
        faces: &[(0, 8), (1, 8), (4, 8)],
        denominator: 144,
    },
    VertexRow {
        mesh: (CUBE, &[(0, 1, HALF), (1, 3, THREE_HALVES)], 1, ZERO),
        points: &[(0, 17), (1, 78), (3, 17), (7, 8)],
        faces: &[(0, 8), (3, 8), (4, 8)],
        denominator: 144,
    },
    VertexRow {
        mesh: (CUBE, &[(1, 3, HALF), (3, 2, HALF), (3, 5, HALF)], 3, ZERO),
        points: &[(1, 1), (2, 1), (3, 12), (5, 1)],
        faces: &[(0, 1), (1, 1), (4, 1)],
        denominator: 18,
    },
    VertexRow {
        mesh: (CUBE, &[(1, 3, QUARTER), (3, 2, HALF), (3, 5, TWO)], 3, ZERO),
        points: &[(1, 5), (2, 5), (3, 42), (5, 5)],
        faces: &[(0, 5), (1, 5), (4, 5)],
        denominator: 72,
    },
    VertexRow {
        mesh: (CUBE, &[(1, 3, HALF), (3, 2, TWO), (3, 5, TWO)], 3, ZERO),
        points: &[(2, 1), (3, 14), (5, 1)],
        faces: &[],
        denominator: 16,
    },
    VertexRow {
        mesh: (CUBE, &[(1, 3, TWO), (3, 2, HALF), (3, 5, TWO)], 3, ZERO),
        points: &[(1, 1), (3, 14), (5, 1)],
        faces: &[],
        denominator: 16,
    },
    VertexRow {
        mesh: (CUBE, &[(1, 3, TWO), (3, 2, TWO), (3, 5, HALF)], 3, ZERO),
        points: &[(1, 1), (2, 1), (3, 14)],
        faces: &[],
        denominator: 16,
    },
    VertexRow {
        mesh: (CUBE, &[(1, 3, THREE), (3, 2, THREE)], 3, HALF),
        points: &[(1, 1), (2, 1), (3, 14)],
        faces: &[],
        denominator: 16,
    },
    VertexRow {
        mesh: (CUBE, &[(1, 3, THREE)], 3, HALF),
        points: &[(1, 1), (2, 1), (3, 12), (5, 1)],
        faces: &[(0, 1), (1, 1), (4, 1)],
        denominator: 18,
    },
    VertexRow {
        mesh: (OCTAHEDRON, &[(4, 0, HALF), (4, 1, THREE_HALVES)], 4, ZERO),
        points: &[(0, 3), (1, 3), (2, 1), (3, 1), (4, 20)],
        faces: &[(0, 1), (1, 1), (2, 1), (3, 1)],
        denominator: 32,
    },
    VertexRow {
        mesh: (CUBE, &[(1, 3, ONE), (3, 2, ONE)], 3, ZERO),
        points: &[(1, 1), (2, 1), (3, 6)],
        faces: &[],
        denominator: 8,
    },
    // Weights with the greatest denominator, and a rule that does not change where a weight would
    // exceed it.
    VertexRow {
        mesh: (CUBE, &[(1, 3, FINE), (3, 2, FINE)], 3, ZERO),
        points: &[
            (1, FINE_END),
            (2, FINE_END),
            (3, FINE_VERTEX),
            (5, FINE_FACE),
        ],
        faces: &[(0, FINE_FACE), (1, FINE_FACE), (4, FINE_FACE)],
        denominator: 72 << 59,
    },
    VertexRow {
        mesh: (CUBE, &[], 3, FINEST),
        points: &[
            (1, FINEST_REST),
            (2, FINEST_REST),
            (3, FINEST_VERTEX),
            (5, FINEST_REST),
        ],
        faces: &[(0, FINEST_REST), (1, FINEST_REST), (4, FINEST_REST)],
        denominator: 9 << 60,
    },
    VertexRow {
        mesh: (CUBE, &[(1, 3, FINE), (3, 2, (1, 3))], 3, TWO),
        points: &[(3, 1)],
        faces: &[],
        denominator: 1,
    },
];

pub fn vertices() -> &'static [VertexRow] {
    VERTICES
}
