// Levels of meshes, compared with tables.

ghost use Rattle.std.specs.Prelude.{◌≡◌, ◌<◌};

use crate::shown::expect_shown;
use mesh_check::check_mesh;
use obj_tags::read_obj;
use ratio128::Steps;
use std::alloc::Global;
use std::marker::Brand;
use std::process::Abort;
use std::sync::ledger::{Blank, Ledger};
use std::test::Fail;

// The cube.
const CUBE: &str = "\
    v 0 0 0\nv 0 0 0\nv 0 0 0\nv 0 0 0\nv 0 0 0\nv 0 0 0\nv 0 0 0\nv 0 0 0\n\
    f 1 4 3 2\nf 5 6 7 8\nf 1 2 6 5\nf 2 3 7 6\nf 3 4 8 7\nf 4 1 5 8\n";

const CUBE_LINES: &str = "\
Normal
face ([0, 3, 2, 1], [0, 1, 2, 3], false)
face ([4, 5, 6, 7], [4, 5, 6, 7], false)
face ([0, 1, 5, 4], [3, 8, 4, 9], false)
face ([1, 2, 6, 5], [2, 10, 5, 8], false)
face ([2, 3, 7, 6], [1, 11, 6, 10], false)
face ([3, 0, 4, 7], [0, 9, 7, 11], false)
edge ((0, 3), 0, Some(5), (0, 1))
edge ((3, 2), 0, Some(4), (0, 1))
edge ((2, 1), 0, Some(3), (0, 1))
edge ((1, 0), 0, Some(2), (0, 1))
edge ((4, 5), 1, Some(2), (0, 1))
edge ((5, 6), 1, Some(3), (0, 1))
edge ((6, 7), 1, Some(4), (0, 1))
edge ((7, 4), 1, Some(5), (0, 1))
edge ((1, 5), 2, Some(3), (0, 1))
edge ((4, 0), 2, Some(5), (0, 1))
edge ((2, 6), 3, Some(4), (0, 1))
edge ((3, 7), 4, Some(5), (0, 1))
point ([0, 5, 2], [0, 1, 0], [3, 0, 9], [1, 0, 1], (0, 1), true)
point ([0, 2, 3], [3, 1, 0], [2, 3, 8], [1, 0, 0], (0, 1), true)
point ([0, 3, 4], [2, 1, 0], [1, 2, 10], [1, 0, 0], (0, 1), true)
point ([0, 4, 5], [1, 1, 0], [0, 1, 11], [1, 0, 0], (0, 1), true)
point ([1, 2, 5], [0, 3, 2], [7, 4, 9], [1, 0, 0], (0, 1), true)
point ([1, 3, 2], [1, 3, 2], [4, 5, 8], [1, 0, 1], (0, 1), true)
point ([1, 4, 3], [2, 3, 2], [5, 6, 10], [1, 0, 1], (0, 1), true)
point ([1, 5, 4], [3, 3, 2], [6, 7, 11], [1, 0, 1], (0, 1), true)
";

// Four quads over three by three points. One is a hole, and one point has no faces. Two edges and two points get a sharpness
// twice.
const GRID: &str = "\
    v 0 0 0\nv 0 0 0\nv 0 0 0\nv 0 0 0\nv 0 0 0\nv 0 0 0\nv 0 0 0\nv 0 0 0\nv 0 0 0\nv 0 0 0\n\
    f 1 2 5 4\nf 2 3 6 5\nf 4 5 8 7\nf 5 6 9 8\n\
    t creasemethod 0/0/1 chaikin\nt interpolateboundary 1/0/0 2\nt hole 1/0/0 2\n\
    t crease 2/1/0 1 4 10\nt crease 2/1/0 4 5 10\nt crease 2/1/0 5 4 0\nt crease 2/1/0 4 1 1/2\n\
    t corner 1/1/0 4 10\nt corner 1/1/0 8 0\nt corner 1/1/0 8 10\nt corner 1/1/0 4 0\n";

const GRID_LINES: &str = "\
Chaikin
face ([0, 1, 4, 3], [0, 1, 2, 3], false)
face ([1, 2, 5, 4], [4, 5, 6, 1], false)
face ([3, 4, 7, 6], [2, 7, 8, 9], true)
face ([4, 5, 8, 7], [6, 10, 11, 7], false)
edge ((0, 1), 0, None, (10, 1))
edge ((1, 4), 0, Some(1), (1, 2))
edge ((4, 3), 0, Some(2), (0, 1))
edge ((3, 0), 0, None, (10, 1))
edge ((1, 2), 1, None, (10, 1))
edge ((2, 5), 1, None, (10, 1))
edge ((5, 4), 1, Some(3), (0, 1))
edge ((4, 7), 2, Some(3), (0, 1))
edge ((7, 6), 2, None, (10, 1))
edge ((6, 3), 2, None, (10, 1))
edge ((5, 8), 3, None, (10, 1))
edge ((8, 7), 3, None, (10, 1))
point ([0], [0], [3, 0], [1, 0], (0, 1), true)
point ([0, 1], [1, 0], [0, 1, 4], [1, 0, 0], (0, 1), true)
point ([1], [1], [4, 5], [1, 0], (0, 1), true)
point ([2, 0], [0, 3], [9, 2, 3], [1, 1, 0], (0, 1), true)
point ([0, 2, 3, 1], [2, 1, 0, 3], [1, 2, 7, 6], [1, 0, 0, 1], (0, 1), true)
point ([1, 3], [2, 1], [5, 6, 10], [1, 0, 0], (0, 1), true)
point ([2], [3], [8, 9], [1, 0], (0, 1), true)
point ([3, 2], [3, 2], [11, 7, 8], [1, 1, 0], (0, 1), true)
point ([3], [2], [10, 11], [1, 0], (10, 1), true)
point ([], [], [], [], (0, 1), true)
";

// Two triangles back to back.
const PAIR: &str = "v 0 0 0\nv 0 0 0\nv 0 0 0\nf 1 2 3\nf 1 3 2\n";

const PAIR_LINES: &str = "\
Normal
face ([0, 1, 2], [0, 1, 2], false)
face ([0, 2, 1], [2, 1, 0], false)
edge ((0, 1), 0, Some(1), (0, 1))
edge ((1, 2), 0, Some(1), (0, 1))
edge ((2, 0), 0, Some(1), (0, 1))
point ([0, 1], [0, 0], [2, 0], [1, 0], (0, 1), true)
point ([0, 1], [1, 2], [0, 1], [1, 0], (0, 1), true)
point ([0, 1], [2, 1], [1, 2], [1, 0], (0, 1), true)
";

// Texts of meshes, and of their levels.
const BUILT: &[(&str, &str)] = &[(CUBE, CUBE_LINES), (GRID, GRID_LINES), (PAIR, PAIR_LINES)];

fn built() -> &'static [(&'static str, &'static str)] {
    BUILT
}

fn expect_level<L: Ledger>(
    rt: &impl Abort,
    alloc: Global,
    text: &str,
    want: &str,
    steps: &mut Steps<L>,
) -> Result<(), Fail> {
    assert!(rt; text.len() < 1 << 28);
    let mesh = read_obj(alloc, text.as_bytes(), 0)?;
    let level = check_mesh(alloc, &mesh, steps)?;
    Ok(expect_shown(rt, alloc, &level, want)?)
}

fn expect_built<L: Ledger>(rt: &impl Abort, alloc: Global, blank: Blank) -> Result<(), Fail>
    requires name { blank.name ≡ L.name }
    requires parts { blank.parts ≡ L.parts }
    requires some { 0 < blank.parts }
{
    let mut steps = Steps::start(blank.open::<L>());
    for (text, want) in built() {
        expect_level(rt, alloc, text, want, &mut steps)?;
    }
    Ok(())
}

#[test]
fn builds_levels(rt: HostRuntime) -> Result<(), Fail> {
    expect_built::<Brand>(&rt, rt.alloc(), Blank::new(1))
}
