// Meshes that several tests read.

pub const CUBE: &str = "\
    v -1 -1 1\nv 1 -1 1\nv -1 1 1\nv 1 1 1\nv -1 1 -1\nv 1 1 -1\nv -1 -1 -1\nv 1 -1 -1\n\
    f 1 2 4 3\nf 3 4 6 5\nf 5 6 8 7\nf 7 8 2 1\nf 2 8 6 4\nf 7 1 3 5\n";

// Two quads side by side whose texture is in two charts.
pub const TWO_CHARTS: &str =
    "v 0 0 0\nv 1 0 0\nv 1 1 0\nv 0 1 0\nv 2 0 0\nv 2 1 0\nvt 0 0\nvt 1 0\nvt 1 1\nvt 0 1\nvt 4 0\nvt 5 0\nvt 5 1\n\
    vt 4 1\nf 1/1 2/2 3/3 4/4\nf 2/5 5/6 6/7 3/8\n";

// The same quads with one chart, whose second half is wider.
pub const ONE_CHART: &str =
    "v 0 0 0\nv 1 0 0\nv 1 1 0\nv 0 1 0\nv 2 0 0\nv 2 1 0\nvt 0 0\nvt 1 0\nvt 1 1\nvt 0 1\nvt 4 0\nvt 4 1\n\
    f 1/1 2/2 3/3 4/4\nf 2/2 5/5 6/6 3/3\n";
