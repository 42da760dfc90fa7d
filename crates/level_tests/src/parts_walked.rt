// A step that makes only one quarter of the square, walked with values.

ghost use Rattle.std.specs.Prelude.{◌≡◌, ◌<◌, [], ◌∷◌, length, IfOk};
ghost use Rattle.primvar_refine.specs.View.{rows_of};
ghost use Rattle.channel_refine.specs.Step.{AreValues};
ghost use Rattle.level_tests.specs.Squares.{square, quarter_child};

use crate::expect::expect_same;
use crate::levels::{join_to, make_square};
use crate::near::{MOST, assert_near};
use channel_refine::ByValues;
use level_topology::{Child, Level};
use level_walk::{Cause, Dropped, NextLevel, Reached, WalkFault, walk};
use mask_rules::Scheme;
use primvar_refine::Valued;
use ratio128::{Memory, Point3, Steps};
use std::alloc::Global;
use std::marker::{Brand, PhantomData};
use std::process::Abort;
use std::sync::ledger::{Blank, Ledger};

// Returns the quarter of the square.
fn quarter_of<L: Ledger>(alloc: Global, level: &Level, steps: &mut Steps<L>) -> Result<Child, Cause>
    requires { level.now ≡ square }
    ensures { IfOk result (λ child. child ≡ quarter_child) }
{
    match join_to(alloc, level, steps) {
        Ok(child) => Ok(child),
        Err(_) => Err(Cause::Memory),
    }
}

// The cause for the missing next level of the quarter. No other level here reports it.
const NO_QUARTER: Cause = Cause::TooManyFaces { count: 0 };

// The step from the square to one of its quarters. The quarter has no next level.
#[derive(Clone, Copy)]
struct Quarter;

impl<L: Ledger> NextLevel<L> for Quarter {
    type Level = Level;

    type Next = Child;

    ghost use Rattle.std.specs.Prelude.{◌≡◌};
    ghost use Rattle.level_tests.specs.Squares.{square, quarter_child, IsSquareOrQuarter};

    ghost level_of = { λ level. level };

    ghost child_of = { λ child. child };

    ghost next_of = { λ child. child.topology };

    ghost IsReady = { λ _ level _. IsSquareOrQuarter level };

    ghost Makes = { λ _ level child next old new. (level ≡ square) × (child ≡ quarter_child) × (next ≡ child.topology) };

    ghost Refuses = { λ _ level cause old new. Unit {0} };

    fn next_level(
        &self,
        alloc: Global,
        level: &Level,
        steps: &mut Steps<L>,
    ) -> Result<Child, Cause> {
        if !level.is_complete(0) {
            return Err(NO_QUARTER);
        }
        quarter_of(alloc, level, steps)
    }

    fn level(walked: &Level) -> &Level {
        walked
    }

    fn child(next: &Child) -> &Child {
        next
    }

    fn into_level(next: Child) -> Level {
        next.into_level()
    }
}

// The fault of level 2, since the quarter has no next level.
const AFTER_QUARTER: WalkFault = WalkFault {
    level: 2,
    cause: NO_QUARTER,
};

// Points: over each denominator the numerators.
macro_rules! point {
    ($den:literal, $x:literal, $y:literal, $z:literal) => {
        Valued { value: Point3 { x: $x, y: $y, z: $z }, den: $den }
    };
}

// The points of the square, with numbers up to 8.
const SQUARE_POINTS: &[Valued<Point3>] = &[
    point!(1, 0, 0, 0),
    point!(1, 8, 0, 4),
    point!(1, 8, 8, 0),
    point!(1, 0, 8, 8),
];

fn square_points() -> &'static [Valued<Point3>] {
    SQUARE_POINTS
}

// The points of the quarter: of vertex 1, which is on a crease, of the face, and of the edges before and after the vertex,
// which are on the boundary.
const QUARTER_POINTS: &[Valued<Point3>] = &[
    point!(8, 56, 8, 24),
    point!(4, 16, 16, 12),
    point!(2, 8, 0, 4),
    point!(2, 16, 8, 4),
];

// A depth, and the values there or the fault of the walk.
type ValueCase = (u32, Result<&'static [Valued<Point3>], WalkFault>);

const VALUES: &[ValueCase] = &[
    (0, Ok(SQUARE_POINTS)),
    (1, Ok(QUARTER_POINTS)),
    (2, Err(AFTER_QUARTER)),
];

fn values() -> &'static [ValueCase] {
    VALUES
}

// Returns the data at the end of a walk, or its fault.
fn carried_of<C: Drop>(end: Result<Reached<Level, C>, WalkFault>) -> Result<C, WalkFault> {
    let Reached { level, carried } = end?;
    drop(level);
    Ok(carried)
}

// Returns the values at a depth, or the fault of the walk.
fn walk_values<L: Ledger>(
    alloc: Global,
    level: Level,
    carried: Vec<Valued<Point3>>,
    depth: u32,
    steps: &mut Steps<L>,
) -> Result<Vec<Valued<Point3>>, WalkFault>
    requires level { level ≡ square }
    requires values { AreValues 8 square (rows_of (λ (q : Point3). q.x ∷ q.y ∷ q.z ∷ []) carried.items) }
{
    let by = ByValues {
        scheme: Scheme::CatmullClark,
        most: MOST,
        of: PhantomData,
    };
    let start = Reached { level, carried };
    carried_of(walk(alloc, &Quarter, &by, &mut Dropped, start, depth, steps))
}

// Returns the points of the square, as values that can be carried from it.
fn near_points(rt: &impl Abort, alloc: Global) -> Result<Vec<Valued<Point3>>, Memory>
    ensures { IfOk result (λ points. AreValues 8 square (rows_of (λ (q : Point3). q.x ∷ q.y ∷ q.z ∷ []) points.items)) }
{
    let points = square_points().to_vec(alloc)?;
    assert!(rt; points.len() == 4);
    assert_near(rt, &points);
    Ok(points)
}

// The walked values, or the fault of the walk, are those of the case.
fn expect_given(rt: &impl Abort, given: &Result<Vec<Valued<Point3>>, WalkFault>, case: &ValueCase) {
    let values = match given {
        Ok(values) => Ok(values.as_slice()),
        Err(fault) => Err(*fault),
    };
    expect_same(rt, &values, &case.1, case);
}

// Walks the values of the square to the depth of the case.
fn expect_values<L: Ledger>(
    rt: &impl Abort,
    alloc: Global,
    case: &ValueCase,
    steps: &mut Steps<L>,
) -> Result<(), Memory> {
    let points = near_points(rt, alloc)?;
    let level = make_square(alloc, steps)?;
    let given = walk_values(alloc, level, points, case.0, steps);
    expect_given(rt, &given, case);
    Ok(())
}

// Walks values to each depth.
fn expect_walks<L: Ledger>(rt: &impl Abort, alloc: Global, blank: Blank) -> Result<(), Memory>
    requires name { blank.name ≡ L.name }
    requires parts { blank.parts ≡ L.parts }
    requires some { 0 < blank.parts }
{
    let mut steps = Steps::start(blank.open::<L>());
    for case in values() {
        expect_values(rt, alloc, case, &mut steps)?;
    }
    Ok(())
}

#[test]
fn walks_a_quarter_of_the_square(rt: HostRuntime) -> Result<(), Memory> {
    expect_walks::<Brand>(&rt, rt.alloc(), Blank::new(1))
}
