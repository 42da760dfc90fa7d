// The square, and one of its quarters, made by hand.

ghost use Rattle.std.specs.Prelude.{◌≡◌, ◌+◌, ◌<◌, ◌≤◌, [], ◌∷◌, length, IfOk};
ghost use Rattle.std.specs.List.{sum_by};
ghost use Rattle.subdiv_model.specs.Sharpness.{Normal};
ghost use Rattle.sharpness_rules.specs.View.{sharpness_of};
ghost use Rattle.level_topology.specs.Rows.{no_rows, with_vertex};
ghost use Rattle.level_tests.specs.Squares.{square, quarter, square_rows, quarter_rows, quarter_child, IsQuarter};

use crate::expect::expect_same;
use crate::shown::expect_shown;
use level_topology::{Child, EdgeFaces, FacePlace, Level, LevelRows, Origin};
use ratio128::{Memory, Steps};
use sharpness_rules::{Method, Sharpness};
use std::alloc::Global;
use std::marker::Brand;
use std::process::Abort;
use std::sync::ledger::{Blank, Ledger};

const INNER: Sharpness = Sharpness::Smooth;

const OUTER: Sharpness = Sharpness::Infinite;

// The faces of an edge of the only face.
const ONE_FACE: EdgeFaces = EdgeFaces {
    first: 0,
    second: None,
};

// Adds a point of the only face: its corner there, and its two edges with its end of each.
fn put_point(
    rows: &mut LevelRows,
    corner: u16,
    edges: (u32, u32),
    ends: (u16, u16),
    s: Sharpness,
    is_complete: bool,
)
    requires points { length rows.old.complete < rows.old.counts.points }
    requires face_places { sum_by length rows.old.vertex_faces < rows.old.counts.face_places }
    requires edge_places { sum_by length rows.old.vertex_edges + 2 ≤ rows.old.counts.edge_places }
    ensures { rows.new ≡ with_vertex (0 ∷ []) (corner ∷ []) (edges.0 ∷ edges.1 ∷ []) (ends.0 ∷ ends.1 ∷ []) (sharpness_of s) is_complete rows.old }
{
    let edges = [edges.0, edges.1];
    let ends = [ends.0, ends.1];
    rows.put_vertex(&[0], &[corner], &edges, &ends, s, is_complete);
}

fn put_square<L: Ledger>(rows: &mut LevelRows, steps: &mut Steps<L>)
    requires { rows.old ≡ no_rows square_rows.counts Normal }
    ensures { rows.new ≡ square_rows }
{
    rows.put_face(&[0, 1, 2, 3], &[0, 1, 2, 3], false, steps);
    rows.put_edge(0, 1, ONE_FACE, OUTER);
    rows.put_edge(1, 2, ONE_FACE, OUTER);
    rows.put_edge(2, 3, ONE_FACE, OUTER);
    rows.put_edge(3, 0, ONE_FACE, OUTER);
    put_point(rows, 0, (3, 0), (1, 0), INNER, true);
    put_point(rows, 1, (0, 1), (1, 0), INNER, true);
    put_point(rows, 2, (1, 2), (1, 0), INNER, true);
    put_point(rows, 3, (2, 3), (1, 0), OUTER, true);
}

pub fn make_square<L: Ledger>(alloc: Global, steps: &mut Steps<L>) -> Result<Level, Memory>
    ensures { IfOk result (λ level. level ≡ square) }
{
    let mut rows = LevelRows::new(alloc, 4, 4, 1, 4, 4, 8, Method::Normal)?;
    put_square(&mut rows, steps);
    Ok(rows.finish())
}

fn put_quarter<L: Ledger>(rows: &mut LevelRows, steps: &mut Steps<L>)
    requires { rows.old ≡ no_rows quarter_rows.counts Normal }
    ensures { rows.new ≡ quarter_rows }
{
    rows.put_face(&[0, 3, 1, 2], &[0, 1, 2, 3], false, steps);
    rows.put_edge(0, 3, ONE_FACE, OUTER);
    rows.put_edge(3, 1, ONE_FACE, INNER);
    rows.put_edge(1, 2, ONE_FACE, INNER);
    rows.put_edge(2, 0, ONE_FACE, OUTER);
    put_point(rows, 0, (0, 3), (0, 1), INNER, false);
    put_point(rows, 2, (1, 2), (1, 0), INNER, false);
    put_point(rows, 3, (2, 3), (1, 0), INNER, false);
    put_point(rows, 1, (0, 1), (1, 0), INNER, false);
}

fn make_quarter<L: Ledger>(alloc: Global, steps: &mut Steps<L>) -> Result<Level, Memory>
    ensures { IfOk result (λ level. level ≡ quarter) }
{
    let mut rows = LevelRows::new(alloc, 4, 4, 1, 4, 4, 8, Method::Normal)?;
    put_quarter(&mut rows, steps);
    Ok(rows.finish())
}

// Returns one quarter as a child of the square.
pub fn join_to<L: Ledger>(
    alloc: Global,
    parent: &Level,
    steps: &mut Steps<L>,
) -> Result<Child, Memory>
    requires { parent.now ≡ square }
    ensures parts { IfOk result IsQuarter }
    ensures child { IfOk result (λ child. child ≡ quarter_child) }
{
    let level = make_quarter(alloc, steps)?;
    let child = Child::join(
        alloc,
        parent,
        level,
        &[
            Origin::Vertex(1),
            Origin::Face(0),
            Origin::Edge(0),
            Origin::Edge(1),
        ],
        &[FacePlace { face: 0, corner: 1 }],
    )?;
    Ok(child)
}

// For each point of the quarter its origin; for its number in the quarter the points that come from the vertex and the edge
// of the square with that number, and the face of that corner.
type Part = (Origin, Option<u32>, Option<u32>, Option<u32>);

const PARTS: &[Part] = &[
    (Origin::Vertex(1), None, Some(2), None),
    (Origin::Face(0), Some(0), Some(3), Some(0)),
    (Origin::Edge(0), None, None, None),
    (Origin::Edge(1), None, None, None),
];

fn parts() -> &'static [Part] {
    PARTS
}

fn part_of(child: &Child, i: u32) -> Part
    requires quarter { IsQuarter child.now }
    requires inside { i < 4 }
{
    (
        child.origin(i),
        child.vertex_point(i),
        child.edge_point(i),
        child.child_face(0, i),
    )
}

fn expect_quarter(rt: &impl Abort, child: &Child)
    requires { IsQuarter child.now }
{
    for i in 0..4 {
        let part = part_of(child, i);
        expect_same(rt, &Some(&part), &parts().get(i as usize), &i);
    }
    expect_same(rt, &child.face_point(0), &Some(1), &"face point");
    let level = child.level();
    let counts = (level.points(), level.faces());
    expect_same(rt, &counts, &(4, 1), &"counts");
    expect_same(rt, &level.is_complete(0), &false, &"mark");
}

// The square: its edges are infinitely sharp, and so is point 3.
const SQUARE_LINES: &str = "\
Normal
face ([0, 1, 2, 3], [0, 1, 2, 3], false)
edge ((0, 1), 0, None, (10, 1))
edge ((1, 2), 0, None, (10, 1))
edge ((2, 3), 0, None, (10, 1))
edge ((3, 0), 0, None, (10, 1))
point ([0], [0], [3, 0], [1, 0], (0, 1), true)
point ([0], [1], [0, 1], [1, 0], (0, 1), true)
point ([0], [2], [1, 2], [1, 0], (0, 1), true)
point ([0], [3], [2, 3], [1, 0], (10, 1), true)
";

fn square_lines() -> &'static str {
    SQUARE_LINES
}

fn expect_joined<L: Ledger>(
    rt: &impl Abort,
    alloc: Global,
    parent: &Level,
    steps: &mut Steps<L>,
) -> Result<(), Memory>
    requires { parent.now ≡ square }
{
    let child = join_to(alloc, parent, steps)?;
    expect_quarter(rt, &child);
    Ok(())
}

fn expect_square<L: Ledger>(rt: &impl Abort, alloc: Global, blank: Blank) -> Result<(), Memory>
    requires name { blank.name ≡ L.name }
    requires parts { blank.parts ≡ L.parts }
    requires some { 0 < blank.parts }
{
    let mut steps = Steps::start(blank.open::<L>());
    let level = make_square(alloc, &mut steps)?;
    expect_shown(rt, alloc, &level, square_lines())?;
    expect_joined(rt, alloc, &level, &mut steps)
}

#[test]
fn finishes_the_square_and_joins_one_quarter(rt: HostRuntime) -> Result<(), Memory> {
    expect_square::<Brand>(&rt, rt.alloc(), Blank::new(1))
}
