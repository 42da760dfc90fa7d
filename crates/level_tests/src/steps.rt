// One step of the cube: the origins of its points and their values, and its limit points.

ghost use Rattle.std.specs.Prelude.{◌≡◌, ℕ, ◌<◌, ◌≤◌, ◌^◌, true, false, length, get_or};
ghost use Rattle.subdiv_model.specs.Edges.{edges_of, faces_of_edge};
ghost use Rattle.level_topology.specs.Topology.{edge_at};
ghost use Rattle.uniform_refiner.specs.Refined.{IsRefined};

use crate::expect::expect_same;
use crate::mask_tables::has_two_faces;
use crate::meshes::level_of;
use crate::near::assert_near;
use crate::solids::{CUBE, Mesh, ZERO};
use level_topology::{Child, Level, Origin};
use limit_stencils::{LimitFault, limit_table};
use mask_rules::Scheme;
use primvar_refine::{ValueFault, Valued, refine_values};
use ratio128::{Point3, Steps};
use std::alloc::Global;
use std::marker::Brand;
use std::process::Abort;
use std::sync::ledger::{Blank, Ledger};
use std::test::Fail;
use stencil_apply::StencilTable;
use stencil_factory::identity;
use uniform_refiner::refine;

// A point: its denominator and its numerators.
macro_rules! point {
    ($den:literal, $x:literal, $y:literal, $z:literal) => {
        Valued { value: Point3 { x: $x, y: $y, z: $z }, den: $den }
    };
}

// The points of the cube.
const CUBE_POINTS: &[Valued<Point3>] = &[
    point!(1, -1, -1, 1),
    point!(1, 1, -1, 1),
    point!(1, -1, 1, 1),
    point!(1, 1, 1, 1),
    point!(1, -1, 1, -1),
    point!(1, 1, 1, -1),
    point!(1, -1, -1, -1),
    point!(1, 1, -1, -1),
];

fn cube_points() -> &'static [Valued<Point3>] {
    CUBE_POINTS
}

// The points of the cube after one step, each with its denominator: of vertices, of faces, and of edges.
const CUBE_VALUES: &[Valued<Point3>] = &[
    point!(36, -20, -20, 20),
    point!(36, 20, -20, 20),
    point!(36, -20, 20, 20),
    point!(36, 20, 20, 20),
    point!(36, -20, 20, -20),
    point!(36, 20, 20, -20),
    point!(36, -20, -20, -20),
    point!(36, 20, -20, -20),
    point!(4, 0, 0, 4),
    point!(4, 0, 4, 0),
    point!(4, 0, 0, -4),
    point!(4, 0, -4, 0),
    point!(4, 4, 0, 0),
    point!(4, -4, 0, 0),
    point!(16, 0, -12, 12),
    point!(16, 12, 0, 12),
    point!(16, 0, 12, 12),
    point!(16, -12, 0, 12),
    point!(16, 12, 12, 0),
    point!(16, 0, 12, -12),
    point!(16, -12, 12, 0),
    point!(16, 12, 0, -12),
    point!(16, 0, -12, -12),
    point!(16, -12, 0, -12),
    point!(16, 12, -12, 0),
    point!(16, -12, -12, 0),
];

fn cube_values() -> &'static [Valued<Point3>] {
    CUBE_VALUES
}

// Asserts that each point is complete.
fn assert_whole(rt: &impl Abort, level: &Level)
    ensures { (v : ℕ) → v < level.now.level.point_count → get_or level.now.complete v false ≡ true }
{
    for v in 0..level.points() {
        assert!(rt; level.is_complete(v), "at {v}");
    }
}

// Asserts that each edge has two faces.
fn assert_closed(rt: &impl Abort, level: &Level)
    ensures { (e : ℕ) → e < length (edges_of level.now.level.polygons) → length (faces_of_edge level.now.level.polygons (edge_at level.now.level.polygons e)) ≡ 2 }
{
    for e in 0..level.edges() {
        assert!(rt; has_two_faces(level, e), "at {e}");
    }
}

// The points of the next level come from the vertices of the cube, then from its faces and its edges.
fn expect_origins(rt: &impl Abort, child: &Child) {
    let points = child.level().points();
    expect_same(rt, &points, &26, &"points");
    for p in 0..points {
        let want = match p {
            0..8 => Origin::Vertex(p),
            8..14 => Origin::Face(p - 8),
            _ => Origin::Edge(p - 14),
        };
        expect_same(rt, &child.origin(p), &want, &p);
    }
}

// Refines the points of the cube, after tests of the conditions of the call.
fn expect_values<L: Ledger>(
    rt: &impl Abort,
    alloc: Global,
    level: &Level,
    child: &Child,
    steps: &mut Steps<L>,
) -> Result<(), ValueFault>
    requires whole { (v : ℕ) → v < level.now.level.point_count → get_or level.now.complete v false ≡ true }
    requires child { IsRefined level.now child.now }
{
    let points = cube_points();
    assert!(rt; points.len() == level.points() as usize);
    assert_near(rt, points);
    assert_closed(rt, level);
    child.facts();
    let values = refine_values(alloc, level, child, points, Scheme::CatmullClark, steps)?;
    expect_same(rt, &values.as_slice(), &cube_values(), &"values");
    Ok(())
}

// Refines a level, after tests of the conditions of the call.
fn expect_refined<L: Ledger>(
    rt: &impl Abort,
    alloc: Global,
    level: &Level,
    steps: &mut Steps<L>,
) -> Result<(), Fail> {
    assert!(rt; level.points() < 100);
    assert_whole(rt, level);
    let child = refine(alloc, level, steps)?;
    expect_origins(rt, &child);
    Ok(expect_values(rt, alloc, level, &child, steps)?)
}

// Returns the limit points, after tests of the conditions of the call.
fn limits_of(
    rt: &impl Abort,
    alloc: Global,
    level: &Level,
    table: &StencilTable,
) -> Result<StencilTable, LimitFault> {
    level.facts();
    assert_whole(rt, level);
    assert_closed(rt, level);
    assert!(rt; table.rows() == level.points());
    limit_table(alloc, level, table)
}

// At point 3 the point itself has the weight 9, the ends 1, 2 and 5 have 4 and the opposite corners 0, 4 and 7 have 1, over
// 24.
fn expect_row(rt: &impl Abort, limits: &StencilTable) {
    assert!(rt; limits.rows() == 8);
    expect_same(rt, &limits.denominator(3), &24, &3);
    let indices: &[u32] = &[0, 1, 2, 3, 4, 5, 7];
    expect_same(rt, &limits.row_indices(3), &indices, &3);
    for (at, want) in [1, 4, 4, 9, 1, 4, 1].iter().enumerate() {
        assert!(rt; at < limits.row_len(3) as usize);
        expect_same(rt, &limits.numerator(3, at as u32), want, &at);
    }
}

fn expect_limits(rt: &impl Abort, alloc: Global, level: &Level) -> Result<(), Fail> {
    let table = identity(alloc, 8)?;
    let limits = limits_of(rt, alloc, level, &table)?;
    expect_row(rt, &limits);
    Ok(())
}

const SMOOTH_CUBE: &Mesh = &(CUBE, &[], 0, ZERO);

fn smooth_cube() -> &'static Mesh {
    SMOOTH_CUBE
}

fn expect_cube<L: Ledger>(rt: &impl Abort, alloc: Global, blank: Blank) -> Result<(), Fail>
    requires name { blank.name ≡ L.name }
    requires parts { blank.parts ≡ L.parts }
    requires some { 0 < blank.parts }
{
    let mut steps = Steps::start(blank.open::<L>());
    let level = level_of(rt, alloc, *smooth_cube(), &mut steps)?;
    expect_refined(rt, alloc, &level, &mut steps)?;
    expect_limits(rt, alloc, &level)
}

#[test]
fn takes_one_step_of_the_cube(rt: HostRuntime) -> Result<(), Fail> {
    expect_cube::<Brand>(&rt, rt.alloc(), Blank::new(1))
}

#[test]
fn names_faults_of_values(rt: HostRuntime) -> Result<(), Fail> {
    let vertex = ValueFault::Transition(1);
    let point = ValueFault::Denominator(2);
    let value = ValueFault::TooBig(3);
    let memory = ValueFault::Memory;
    let text = format!(in rt.alloc(); "{vertex}; {point}; {value}; {memory}")?;
    expect_same(
        &rt,
        &text.as_str(),
        &"vertex 1: a denominator passes 2^60; point 2: the denominator is too great; point 3: a numerator may be too great; out of memory",
        &"faults",
    );
    Ok(())
}
