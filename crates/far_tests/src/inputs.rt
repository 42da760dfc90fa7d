// Meshes, words and texts of whole runs.

pub const TRIANGLES: &str = "v 0 0 0\nv 12 0 0\nv 0 12 0\nf 1 2 3\nf 1 3 2\n";

pub const TRIANGLES_REFINED: &str =
    "v 5 5 0\nv 2 5 0\nv 5 2 0\nv 4 4 0\nv 4 4 0\nv 5 2 0\nv 5 5 0\nv 2 5 0\nf 1 6 4 8\nf 2 7 4 6\nf 3 8 4 7\n\
    f 1 8 5 6\nf 3 7 5 8\nf 2 6 5 7\n";

pub const CUBE: &str =
    "v -1 -1 1\nv 1 -1 1\nv -1 1 1\nv 1 1 1\nv -1 1 -1\nv 1 1 -1\nv -1 -1 -1\nv 1 -1 -1\nf 1 2 4 3\nf 3 4 6 5\n\
    f 5 6 8 7\nf 7 8 2 1\nf 2 8 6 4\nf 7 1 3 5\n";

pub const CUBE_REFINED: &str =
    "v -5/9 -5/9 5/9\nv 5/9 -5/9 5/9\nv -5/9 5/9 5/9\nv 5/9 5/9 5/9\nv -5/9 5/9 -5/9\nv 5/9 5/9 -5/9\n\
    v -5/9 -5/9 -5/9\nv 5/9 -5/9 -5/9\nv 0 0 1\nv 0 1 0\nv 0 0 -1\nv 0 -1 0\nv 1 0 0\nv -1 0 0\nv 0 -3/4 3/4\n\
    v 3/4 0 3/4\nv 0 3/4 3/4\nv -3/4 0 3/4\nv 3/4 3/4 0\nv 0 3/4 -3/4\nv -3/4 3/4 0\nv 3/4 0 -3/4\nv 0 -3/4 -3/4\n\
    v -3/4 0 -3/4\nv 3/4 -3/4 0\nv -3/4 -3/4 0\nf 1 15 9 18\nf 2 16 9 15\nf 4 17 9 16\nf 3 18 9 17\nf 3 17 10 21\n\
    f 4 19 10 17\nf 6 20 10 19\nf 5 21 10 20\nf 5 20 11 24\nf 6 22 11 20\nf 8 23 11 22\nf 7 24 11 23\n\
    f 7 23 12 26\nf 8 25 12 23\nf 2 15 12 25\nf 1 26 12 15\nf 2 25 13 16\nf 8 22 13 25\nf 6 19 13 22\n\
    f 4 16 13 19\nf 7 26 14 24\nf 1 18 14 26\nf 3 21 14 18\nf 5 24 14 21\n";

pub const SQUARE: &str = "v 0 0 0\nv 4 0 0\nv 4 4 0\nv 0 4 0\nf 1 2 3 4\n";

// The square with sharp corners.
pub const SHARP_SQUARE: &str =
    "v 0 0 0\nv 4 0 0\nv 4 4 0\nv 0 4 0\nf 1 2 3 4\nt interpolateboundary 1/0/0 1\n";

// The square, and a move of one of its points.
pub const MOVED_SQUARE: &str =
    "v 0 0 0\nv 4 0 0\nv 4 4 0\nv 0 4 0\nf 1 2 3 4\nframes\nmove 2 8 8 0\ngo\n";

pub const MOVED_SQUARE_ANSWER: &str =
    "frame 6\np 1 4 1 0\np 2 13/2 13/2 0\np 3 1 4 0\np 4 3 3 0\np 6 6 4 0\np 7 4 6 0\n";

// The square, and moves of its points. The last one is too fine.
pub const MOVES: &str =
    "v 0 0 0\nv 4 0 0\nv 4 4 0\nv 0 4 0\nf 1 2 3 4\nframes\nmove 2 8 8 0\ngo\ngo # again\n\
    move 0 1 1 0\nmove 0 0 0 1\ngo\nmove 1 0.5 0 0\n";

// The answers of the three lines `go`.
pub const MOVES_ANSWERS: &str =
    "frame 6\np 1 4 1 0\np 2 13/2 13/2 0\np 3 1 4 0\np 4 3 3 0\np 6 6 4 0\np 7 4 6 0\nframe 0\nframe 6\n\
    p 0 1/2 1/2 3/4\np 1 4 1 1/8\np 3 1 4 1/8\np 4 3 3 1/4\np 5 2 0 1/2\np 8 0 2 1/2\n";

// The table of the square after one step.
pub const SQUARE_TABLE: &str = "\
    table controls 4 rows 9 entries 24\n\
    s 8 0 6 1 1 3 1\n\
    s 8 0 1 1 6 2 1\n\
    s 8 1 1 2 6 3 1\n\
    s 8 0 1 2 1 3 6\n\
    s 4 0 1 1 1 2 1 3 1\n\
    s 2 0 1 1 1\n\
    s 2 1 1 2 1\n\
    s 2 2 1 3 1\n\
    s 2 0 1 3 1\n";

// The square before its table at depth 0.
pub const SQUARE_AND_TABLE: &str = "v 0 0 0\nv 4 0 0\nv 4 4 0\nv 0 4 0\nf 1 2 3 4\n\
    table controls 4 rows 4 entries 4\ns 1 0 1\ns 1 1 1\ns 1 2 1\ns 1 3 1\n";

// A table of one row, which has a quarter of the second control point, before two points.
pub const QUARTER_AND_POINTS: &str =
    "table controls 2 rows 1 entries 2\ns 4 0 3 1 1\nv 0 0 0\nv 4 8 1\n";

// The limit points of the square after one step: points of a uniform cubic curve, and the point of the face.
pub const SQUARE_LIMITS: &str = "\
    v 2/3 2/3 0\n\
    v 10/3 2/3 0\n\
    v 10/3 10/3 0\n\
    v 2/3 10/3 0\n\
    v 2 2 0\n\
    v 2 1/6 0\n\
    v 23/6 2 0\n\
    v 2 23/6 0\n\
    v 1/6 2 0\n\
    f 1 6 5 9\n\
    f 2 7 5 6\n\
    f 3 8 5 7\n\
    f 4 9 5 8\n";

// Three by three quads. The height of a point is the square of its place in a row.
pub const CURVED_SHEET: &str =
    "v 0 0 0\nv 1 0 1\nv 2 0 4\nv 3 0 9\nv 0 1 0\nv 1 1 1\nv 2 1 4\nv 3 1 9\nv 0 2 0\nv 1 2 1\nv 2 2 4\nv 3 2 9\n\
    v 0 3 0\nv 1 3 1\nv 2 3 4\nv 3 3 9\nf 1 2 6 5\nf 2 3 7 6\nf 3 4 8 7\nf 5 6 10 9\nf 6 7 11 10\nf 7 8 12 11\n\
    f 9 10 14 13\nf 10 11 15 14\nf 11 12 16 15\n";

// The patch of the middle quad. A uniform cubic curve through squares is a third above them.
pub const CURVED_PATCH: &str = "\
    patch face 4 grid 2\n\
    s 0 0 1 1 4/3\n\
    s 1 0 3/2 1 31/12\n\
    s 2 0 2 1 13/3\n\
    s 0 1 1 3/2 4/3\n\
    s 1 1 3/2 3/2 31/12\n\
    s 2 1 2 3/2 13/3\n\
    s 0 2 1 2 4/3\n\
    s 1 2 3/2 2 31/12\n\
    s 2 2 2 2 13/3\n";

// The sparse levels of the square with sharp corners: nothing is a feature.
pub const SQUARE_LEVELS: &str = "\
    level 0 points 4 faces 1\n\
    v 0 0 0\n\
    v 4 0 0\n\
    v 4 4 0\n\
    v 0 4 0\n\
    f l 0 1 2 3 4\n\
    level 1 points 0 faces 0\n";

// Two quads side by side whose texture is in two charts.
pub const TWO_CHARTS: &str =
    "v 0 0 0\nv 1 0 0\nv 1 1 0\nv 0 1 0\nv 2 0 0\nv 2 1 0\nvt 0 0\nvt 1 0\nvt 1 1\nvt 0 1\nvt 4 0\nvt 5 0\nvt 5 1\n\
    vt 4 1\nf 1/1 2/2 3/3 4/4\nf 2/5 5/6 6/7 3/8\n";

pub const TWO_CHARTS_IN_DECIMALS: &str =
    "v 0.00 0.00 0.00\nv 1.00 0.00 0.00\nv 1.00 1.00 0.00\nv 0.00 1.00 0.00\nv 2.00 0.00 0.00\nv 2.00 1.00 0.00\n\
    vt 0.00 0.00\nvt 1.00 0.00\nvt 1.00 1.00\nvt 0.00 1.00\nvt 4.00 0.00\nvt 5.00 0.00\nvt 5.00 1.00\n\
    vt 4.00 1.00\nf 1/1 2/2 3/3 4/4\nf 2/5 5/6 6/7 3/8\nt interpolateboundary 1/0/0 2\n";

// Level 0 of the two charts as a sparse level with texture.
pub const TWO_CHARTS_LEVEL: &str =
    "level 0 points 6 faces 2 texture 8\nv 0 0 0\nv 1 0 0\nv 1 1 0\nv 0 1 0\nv 2 0 0\nv 2 1 0\nvt 0 0\nvt 1 0\n\
    vt 1 1\nvt 0 1\nvt 4 0\nvt 5 0\nvt 5 1\nvt 4 1\nf l 0 1/1 2/2 3/3 4/4\nf l 1 2/5 5/6 6/7 3/8\n";

// The leaves of the corners of the cube's first face, after one step.
pub const CUBE_LEAVES: &str =
    "p 0 0 level 1 face 0 corner 0 at 0 0\np 1 0 level 1 face 1 corner 0 at 0 0\n\
    p 0 1 level 1 face 3 corner 0 at 0 0\np 1 1 level 1 face 2 corner 0 at 0 0\n";

pub const REFINE: &str = "refine depth=1";

pub const LEVELS: &str = "levels depth=0";

pub const GEN: &str = "gen seed=0 size=1 depth=1";

pub const SHEET: &str =
    "gen points 4 faces 1\nlevel 1 points 9 faces 4 entries 24 den 8\nlast 0 5 3\n";

pub const CUBE_LEVEL: &str =
    "level 0 points 8 edges 12 faces 6 euler 2 boundary 0 holes 0 sharp 0 extraordinary 8\n";
