// A session of the table of a square: moves one after another, with the points that they change.

ghost use Rattle.std.specs.Prelude.{◌≡◌, ◌<◌};

use crate::expect::expect_same;
use crate::tables::{assert_fits, corners, square, table_of};
use ratio128::{Point3, Steps};
use std::alloc::Global;
use std::marker::Brand;
use std::process::Abort;
use std::sync::ledger::{Blank, Ledger};
use std::test::Fail;
use stencil_apply::StencilTable;
use stencil_session::{MoveFault, Session};

macro_rules! point {
    ($x:expr, $y:expr, $z:expr) => {
        Point3 { x: $x, y: $y, z: $z }
    };
}

// The greatest denominator is 8, so 2^123 - 1 is the greatest amount that fits.
const MOST: i128 = (1 << 123) - 1;

const NEAR: Point3 = point!(12, 0, 5);

const FAR: Point3 = point!(MOST, -MOST, MOST);

const PAST: Point3 = point!(0, -MOST - 1, 0);

// A control or a point, and its numerators.
type Place = (u32, Point3);

// Moves of controls, the answer, and the points that change.
type Step = (&'static [Place], Result<(), MoveFault>, &'static [Place]);

const NEAR_CHANGES: &[Place] = &[
    (0, point!(12, 12, 1)),
    (1, point!(24, 24, 1)),
    (2, point!(12, 0, 5)),
    (3, point!(24, 12, 5)),
];

const STEPS: &[Step] = &[
    (&[(4, NEAR)], Err(MoveFault::IndexRange), &[]),
    (&[(4, PAST)], Err(MoveFault::IndexRange), &[]),
    (&[(0, PAST)], Err(MoveFault::Overflow), &[]),
    (&[(1, NEAR)], Ok(()), NEAR_CHANGES),
    // points are marked even if their values stay
    (&[(1, NEAR)], Ok(()), NEAR_CHANGES),
    // the moves before the first refused one are made
    (
        &[(2, FAR), (0, PAST), (1, FAR)],
        Err(MoveFault::Overflow),
        &[
            (1, point!(MOST + 12, -MOST + 12, MOST + 1)),
            (3, point!(MOST + 12, -MOST, MOST + 5)),
        ],
    ),
    (
        &[(1, FAR), (2, NEAR)],
        Ok(()),
        &[
            (0, point!(MOST, -MOST + 12, MOST - 4)),
            (1, point!(MOST + 12, -MOST + 12, MOST + 1)),
            (2, FAR),
            (3, point!(MOST + 12, -MOST, MOST + 5)),
        ],
    ),
    (
        &[(0, FAR)],
        Ok(()),
        &[
            (0, point!(7 * MOST, -7 * MOST + 12, 7 * MOST - 4)),
            (1, point!(2 * MOST + 12, -2 * MOST + 12, 2 * MOST + 1)),
            (2, point!(2 * MOST, -2 * MOST, 2 * MOST)),
        ],
    ),
];

fn all_steps() -> &'static [Step] {
    STEPS
}

// After all steps: each control, and the denominator of the point with its number.
const END: &[(Point3, u128)] = &[(FAR, 8), (FAR, 4), (NEAR, 2), (point!(0, 12, -4), 2)];

fn end() -> &'static [(Point3, u128)] {
    END
}

fn find_place(places: &[Place], number: u32) -> Option<Place> {
    for place in places {
        if place.0 == number {
            return Some(*place);
        }
    }
    None
}

// Exactly the changed points are marked, with these values.
fn expect_marks(rt: &impl Abort, session: &Session, step: &Step) {
    for point in 0..session.table().rows() {
        let given = Some((point, session.value(point)));
        let want = find_place(step.2, point);
        expect_same(rt, &session.is_changed(point), &want.is_some(), step);
        expect_same(rt, &want.or(given), &given, step);
    }
}

// The session returns the changed points in turn, and unmarks each.
fn expect_changes(rt: &impl Abort, session: &mut Session, step: &Step) {
    expect_same(rt, &(session.changed() as usize), &step.2.len(), step);
    for change in step.2 {
        expect_same(rt, &session.next_changed(), &Some(*change), step);
    }
    expect_same(rt, &session.next_changed(), &None, step);
}

// Makes a single move, or several at once.
fn expect_step<L: Ledger>(
    rt: &impl Abort,
    session: &mut Session,
    step: &Step,
    steps: &mut Steps<L>,
) {
    let given = match step.0 {
        [(control, to)] => session.move_point(*control, *to, steps),
        moves => session.move_points(moves, steps),
    };
    expect_same(rt, &given, &step.1, step);
    expect_marks(rt, session, step);
    expect_changes(rt, session, step);
}

fn expect_end(rt: &impl Abort, session: &Session) {
    assert!(rt; session.controls() == 4 && session.table().rows() == 4);
    session.facts();
    for i in 0..4 {
        let given = (session.control(i), session.denominator(i));
        expect_same(rt, &Some(&given), &end().get(i as usize), &i);
    }
}

fn expect_all<L: Ledger>(rt: &impl Abort, session: &mut Session, steps: &mut Steps<L>) {
    for step in all_steps() {
        expect_step(rt, session, step, steps);
    }
    expect_end(rt, session);
}

fn expect_session<L: Ledger>(
    rt: &impl Abort,
    alloc: Global,
    table: StencilTable,
    blank: Blank,
) -> Result<(), Fail>
    requires name { blank.name ≡ L.name }
    requires parts { blank.parts ≡ L.parts }
    requires some { 0 < blank.parts }
{
    let controls = corners();
    assert_fits(rt, &table, controls);
    let mut steps = Steps::start(blank.open::<L>());
    let mut session = Session::start(alloc, table, controls, &mut steps)?;
    expect_all(rt, &mut session, &mut steps);
    Ok(())
}

#[test]
fn follows_moves_of_controls(rt: HostRuntime) -> Result<(), Fail> {
    let table = table_of(&rt, rt.alloc(), square())?;
    expect_session::<Brand>(&rt, rt.alloc(), table, Blank::new(1))
}
