// Tables and sums at the edges of 64 bits.

ghost use Rattle.std.specs.Prelude.{◌≡◌, ◌<◌, length};
ghost use Rattle.std.specs.List.{All};
ghost use Rattle.subdiv_model.specs.Channel.{number_bound};

use crate::expect::expect_same;
use crate::tables::{Row, assert_fits, expect_rows, table_of};
use number_width::Width;
use ratio128::{Point3, Steps};
use std::marker::Brand;
use std::process::Abort;
use std::sync::ledger::{Blank, Ledger};
use std::test::Fail;
use stencil_apply::{Entry, StencilTable, sum_at, sum_width};

// Rows over four control points, the numbers of these points, the width of their sums, and the sums.
type Sums = (&'static [Row], &'static [Point3], Width, &'static [Point3]);

macro_rules! point {
    ($x:expr, $y:expr, $z:expr) => {
        Point3 { x: $x, y: $y, z: $z }
    };
}

macro_rules! entries {
    ($($index:literal $numerator:expr),*) => {
        &[$(Entry { index: $index, numerator: $numerator }),*]
    };
}

const NONE: Point3 = point!(0, 0, 0);

// A single point, the mean of two, and denominators at 2^63 and at 2^64.
const ONE_POINT: Row = (1, entries![0 1]);

const MEAN: Row = (2, entries![0 1, 1 1]);

const BELOW_63: Row = ((1 << 63) - 1, entries![0 (1 << 63) - 2, 1 1]);

const AT_63: Row = (1 << 63, entries![0 (1 << 63) - 1, 1 1]);

const BELOW_64: Row = ((1 << 64) - 1, entries![0 (1 << 64) - 2, 1 1]);

const AT_64: Row = (1 << 64, entries![0 (1 << 64) - 1, 1 1]);

// Points of small numbers, and of numbers at 2^62 and 2^63.
const SMALL: &[Point3] = &[point!(1, -1, 0), point!(1, 0, -1), NONE, NONE];

const SMALL_SUMS: &[Point3] = &[
    point!((1 << 63) - 1, -((1 << 63) - 2), -1),
    point!(1 << 63, -((1 << 63) - 1), -1),
    point!((1 << 64) - 1, -((1 << 64) - 2), -1),
    point!(1 << 64, -((1 << 64) - 1), -1),
];

const GREAT_FIRST: Point3 = point!((1 << 63) - 1, -((1 << 63) - 1), 7);

const GREAT: &[Point3] = &[GREAT_FIRST, NONE, NONE, NONE];

const GREATER_FIRST: Point3 = point!(1 << 63, -(1 << 63), 7);

const GREATER: &[Point3] = &[GREATER_FIRST, NONE, NONE, NONE];

const HALVES_FIRST: Point3 = point!((1 << 62) - 1, -((1 << 62) - 1), 0);

const HALVES: &[Point3] = &[
    HALVES_FIRST,
    point!((1 << 62) - 1, -((1 << 62) - 1), -5),
    NONE,
    NONE,
];

const SUMS: &[Sums] = &[
    (
        &[BELOW_63],
        SMALL,
        Width::Narrow,
        &[point!((1 << 63) - 1, -((1 << 63) - 2), -1)],
    ),
    (
        &[AT_63],
        SMALL,
        Width::Wide,
        &[point!(1 << 63, -((1 << 63) - 1), -1)],
    ),
    (
        &[BELOW_64],
        SMALL,
        Width::Wide,
        &[point!((1 << 64) - 1, -((1 << 64) - 2), -1)],
    ),
    (
        &[AT_64],
        SMALL,
        Width::Wide,
        &[point!(1 << 64, -((1 << 64) - 1), -1)],
    ),
    (
        &[BELOW_63, AT_63, BELOW_64, AT_64],
        SMALL,
        Width::Wide,
        SMALL_SUMS,
    ),
    (&[ONE_POINT], GREAT, Width::Narrow, &[GREAT_FIRST]),
    (&[ONE_POINT], GREATER, Width::Wide, &[GREATER_FIRST]),
    (
        &[MEAN, ONE_POINT],
        HALVES,
        Width::Narrow,
        &[point!((1 << 63) - 2, -((1 << 63) - 2), -5), HALVES_FIRST],
    ),
    (&[MEAN], GREAT, Width::Wide, &[GREAT_FIRST]),
    (
        &[BELOW_63],
        &[NONE, NONE, NONE, NONE],
        Width::Narrow,
        &[NONE],
    ),
    (&[AT_63], &[NONE, NONE, NONE, NONE], Width::Wide, &[NONE]),
];

fn all_sums() -> &'static [Sums] {
    SUMS
}

// The sums of all rows, in a width that fits them all.
fn expect_sums_by<L: Ledger>(rt: &impl Abort, table: &StencilTable, case: &Sums, blank: Blank)
    requires name { blank.name ≡ L.name }
    requires parts { blank.parts ≡ L.parts }
    requires some { 0 < blank.parts }
{
    let &(_, controls, width, sums) = case;
    assert!(rt; sums.len() == table.rows() as usize);
    assert_fits(rt, table, controls);
    let mut steps = Steps::start(blank.open::<L>());
    let given = sum_width::<Point3, L>(table, controls);
    expect_same(rt, &given, &width, case);
    for row in 0..table.rows() {
        let sum = sum_at(table, row, controls, &NONE, given, &mut steps);
        expect_same(rt, &sum, &sums[row as usize], case);
    }
}

// The rows are read back, and have these sums.
fn expect_sums(rt: &(impl Abort + AllocGlobal), case: &Sums) -> Result<(), Fail> {
    let table = table_of(rt, rt.alloc(), case.0)?;
    expect_rows(rt, &table, case.0)?;
    expect_sums_by::<Brand>(rt, &table, case, Blank::new(1));
    Ok(())
}

#[test]
fn keeps_numbers_at_the_edges_of_64_bits(rt: HostRuntime) -> Result<(), Fail> {
    for case in all_sums() {
        expect_sums(&rt, case)?;
    }
    Ok(())
}
