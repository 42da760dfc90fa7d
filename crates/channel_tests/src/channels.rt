// Channels refined to a depth and composed into a table, and the first levels whose numbers pass their bounds.

ghost use Rattle.std.specs.Prelude.{◌≡◌, ◌<◌, ◌≤◌, true, length};
ghost use Rattle.std.specs.List.{All};
ghost use Rattle.subdiv_model.specs.Channel.{number_bound};
ghost use Rattle.channel_refine.specs.Base.{IsBase};
ghost use Rattle.channel_tests.specs.Controls.{IsControl};

use crate::base::level_of;
use crate::expect::expect_same;
use channel_refine::{
    BaseChannel, ComposedChannel, RefinedChannel, compose_channel, refine_channel,
};
use level_topology::Level;
use level_walk::{Cause, OverflowKind, WalkFault};
use mask_rules::Scheme;
use obj_tags::read_obj;
use primvar_refine::Valued;
use ratio128::{Point3, Steps};
use raw_mesh::RawMesh;
use std::alloc::Global;
use std::marker::Brand;
use std::process::Abort;
use std::sync::ledger::{Blank, Ledger};
use std::test::Fail;
use stencil_apply::StencilTable;

// The greatest denominator, and the greatest numerator over it.
const NUMBER_BOUND: u128 = (1 << 126) - 1;

// Two triangles back to back.
const TRIANGLES: &str = "v 0 0 0\nv 12 0 0\nv 0 12 0\nf 1 2 3\nf 1 3 2\n";

// A point: its denominator and its numerators.
macro_rules! point {
    ($den:literal, $x:literal, $y:literal, $z:literal) => {
        Valued { value: Point3 { x: $x, y: $y, z: $z }, den: $den }
    };
}

// The points of the triangles, and those of the next level by both schemes.
const POINTS: &[Valued<Point3>] = &[point!(1, 0, 0, 0), point!(1, 12, 0, 0), point!(1, 0, 12, 0)];

fn points() -> &'static [Valued<Point3>] {
    POINTS
}

const SMOOTH: &[Valued<Point3>] = &[
    point!(12, 60, 60, 0),
    point!(12, 24, 60, 0),
    point!(12, 60, 24, 0),
    point!(3, 12, 12, 0),
    point!(3, 12, 12, 0),
    point!(12, 60, 24, 0),
    point!(12, 60, 60, 0),
    point!(12, 24, 60, 0),
];

const LINEAR: &[Valued<Point3>] = &[
    point!(1, 0, 0, 0),
    point!(1, 12, 0, 0),
    point!(1, 0, 12, 0),
    point!(3, 12, 12, 0),
    point!(3, 12, 12, 0),
    point!(2, 12, 0, 0),
    point!(2, 12, 12, 0),
    point!(2, 0, 12, 0),
];

// The greatest amount of the controls, their common denominator, the scheme, and the depth.
type Asked = (u128, u128, Scheme, u32);

// A request, and the points of its level or its fault. The greatest denominators are 12 and 768.
type Case = (Asked, Result<&'static [Valued<Point3>], WalkFault>);

// The greatest amount that fits at the first level.
const FITS: u128 = 7089215977519551322153637654828504405;

const GREAT_AT_1: WalkFault = WalkFault {
    level: 1,
    cause: Cause::Overflow(OverflowKind::Value),
};

const GREAT_AT_2: WalkFault = WalkFault {
    level: 2,
    cause: Cause::Overflow(OverflowKind::Value),
};

const CASES: &[Case] = &[
    ((12, 1, Scheme::CatmullClark, 0), Ok(POINTS)),
    ((12, 1, Scheme::CatmullClark, 1), Ok(SMOOTH)),
    ((FITS, 1, Scheme::CatmullClark, 1), Ok(SMOOTH)),
    ((FITS + 1, 1, Scheme::CatmullClark, 1), Err(GREAT_AT_1)),
    ((12, FITS + 1, Scheme::CatmullClark, 3), Err(GREAT_AT_1)),
    ((FITS, 1, Scheme::CatmullClark, 2), Err(GREAT_AT_2)),
    ((FITS + 1, 1, Scheme::Linear, 1), Ok(LINEAR)),
];

fn cases() -> &'static [Case] {
    CASES
}

// Whether a point is a control with at most this amount.
fn is_control(p: &Valued<Point3>, greatest: u128) -> bool
    ensures { result ≡ true → IsControl greatest p.now }
{
    p.den == 1
        && p.value.x.unsigned_abs() <= greatest
        && p.value.y.unsigned_abs() <= greatest
        && p.value.z.unsigned_abs() <= greatest
}

// Asserts that the request is in range, and that the points are its controls.
fn assert_asked(rt: &impl Abort, level: &Level, points: &[Valued<Point3>], asked: &Asked)
    ensures controls { All (IsControl asked.now.0) points.now }
    ensures count { length points.now ≡ level.now.level.point_count }
    ensures greatest { asked.now.0 ≤ number_bound }
    ensures common { asked.now.1 ≤ number_bound }
    ensures depth { asked.now.3 ≤ 10 }
{
    let &(greatest, common, _, depth) = asked;
    let are_controls = points.iter().all(|p| is_control(p, greatest));
    assert!(rt; are_controls);
    assert!(rt; points.len() == level.points() as usize);
    assert!(rt; greatest <= NUMBER_BOUND);
    assert!(rt; common <= NUMBER_BOUND);
    assert!(rt; depth <= 10);
}

// The level of a request from level 0 and its points.
fn refine_by<L: Ledger>(
    rt: &impl Abort,
    alloc: Global,
    level: Level,
    controls: Vec<Valued<Point3>>,
    asked: &Asked,
    steps: &mut Steps<L>,
) -> Result<RefinedChannel<Point3>, WalkFault>
    requires { IsBase level }
{
    assert_asked(rt, &level, &controls, asked);
    let &(greatest, common, scheme, depth) = asked;
    let base = BaseChannel::new(level, scheme, greatest, common);
    refine_channel(alloc, base, controls, depth, steps)
}

// The points of the level, or the fault, are those of the case.
fn expect_given(rt: &impl Abort, given: &Result<RefinedChannel<Point3>, WalkFault>, case: &Case) {
    let values = match given {
        Ok(refined) => Ok(refined.values.as_slice()),
        Err(fault) => Err(*fault),
    };
    expect_same(rt, &values, &case.1, case);
}

fn expect_case<L: Ledger>(
    rt: &impl Abort,
    alloc: Global,
    mesh: &RawMesh,
    case: &Case,
    steps: &mut Steps<L>,
) -> Result<(), Fail> {
    let controls = points().to_vec(alloc)?;
    let level = level_of(rt, alloc, mesh, steps)?;
    let given = refine_by(rt, alloc, level, controls, &case.0, steps);
    expect_given(rt, &given, case);
    Ok(())
}

// The table of a mesh after one step, for controls of at most 12 in amount.
fn compose_by<L: Ledger>(
    rt: &impl Abort,
    alloc: Global,
    mesh: &RawMesh,
    steps: &mut Steps<L>,
) -> Result<ComposedChannel, Fail> {
    let level = level_of(rt, alloc, mesh, steps)?;
    let base = BaseChannel::new(level, Scheme::CatmullClark, 12, 1);
    Ok(compose_channel(alloc, base, 1, steps)?)
}

// The row of a face: its denominator and its corners.
type FaceRow<'a> = (u128, &'a [u32]);

const FACE_ROW: &FaceRow<'static> = &(3, &[0, 1, 2]);

fn face_row() -> &'static FaceRow<'static> {
    FACE_ROW
}

// The row of the first face has the corners of the face.
fn expect_face(rt: &impl Abort, table: &StencilTable)
    requires { 3 < length table.now.rows }
{
    let row = (table.denominator(3), table.row_indices(3));
    expect_same(rt, &row, face_row(), &"face");
}

// The table has these numbers of control points, rows and entries, and this greatest denominator. A face has its corners.
fn expect_table(rt: &impl Abort, table: &StencilTable) {
    let counts = (table.controls(), table.rows(), table.entries());
    expect_same(rt, &counts, &(3, 8, 24), &"counts");
    expect_same(rt, &table.greatest(), &12, &"greatest");
    assert!(rt; 3 < table.rows());
    expect_face(rt, table);
}

fn expect_composed<L: Ledger>(
    rt: &impl Abort,
    alloc: Global,
    mesh: &RawMesh,
    steps: &mut Steps<L>,
) -> Result<(), Fail> {
    let composed = compose_by(rt, alloc, mesh, steps)?;
    expect_table(rt, &composed.table);
    Ok(())
}

fn expect_cases<L: Ledger>(
    rt: &impl Abort,
    alloc: Global,
    mesh: &RawMesh,
    blank: Blank,
) -> Result<(), Fail>
    requires name { blank.name ≡ L.name }
    requires parts { blank.parts ≡ L.parts }
    requires some { 0 < blank.parts }
{
    let mut steps = Steps::start(blank.open::<L>());
    expect_composed(rt, alloc, mesh, &mut steps)?;
    for case in cases() {
        expect_case(rt, alloc, mesh, case, &mut steps)?;
    }
    Ok(())
}

#[test]
fn refines_triangles_up_to_the_bounds(rt: HostRuntime) -> Result<(), Fail> {
    let mesh = read_obj(rt.alloc(), TRIANGLES.as_bytes(), 0)?;
    expect_cases::<Brand>(&rt, rt.alloc(), &mesh, Blank::new(1))
}
