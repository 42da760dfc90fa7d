// Tables of stencils: put together, read back and evaluated.

ghost use Rattle.std.specs.Prelude.{◌≡◌, ◌+◌, ◌*◌, ◌≤◌, ◌<◌, true, length, ◌∷◌, []};
ghost use Rattle.std.specs.List.{All};
ghost use Rattle.subdiv_model.specs.Channel.{number_bound};
ghost use Rattle.ratio128.specs.Numbers.{greatest_amount};
ghost use Rattle.stencil_apply.specs.Table.{IsRow, entries_of, greatest_of};
ghost use Rattle.stencil_apply.specs.Arrays.{row_of};
ghost use Rattle.stencil_apply.specs.Built.{no_rows};

use crate::expect::expect_same;
use number_width::Width;
use ratio128::{Memory, Point3, Steps};
use std::alloc::Global;
use std::marker::Brand;
use std::process::Abort;
use std::sync::ledger::{Blank, Ledger};
use std::test::Fail;
use stencil_apply::laws::ranges_cover_the_table;
use stencil_apply::{Entry, StencilTable, TableBuilder, apply_range, scale_fits};

// The greatest denominator, and the greatest numerator over it.
const NUMBER_BOUND: u128 = (1 << 126) - 1;

// A row: its denominator, and its control points with their numerators.
pub type Row = (u128, &'static [Entry]);

// Control points, each with its numerator.
macro_rules! entries {
    ($($index:literal $numerator:literal),*) => {
        &[$(Entry { index: $index, numerator: $numerator }),*]
    };
}

// One row of three entries.
const ROW: &[Row] = &[(8, entries![0 6, 1 1, 3 1])];

fn one_row() -> &'static [Row] {
    ROW
}

// A square after one step: a corner point, the face point, and two edge points of the boundary.
const SQUARE: &[Row] = &[
    (8, entries![0 6, 1 1, 3 1]),
    (4, entries![0 1, 1 1, 2 1, 3 1]),
    (2, entries![0 1, 1 1]),
    (2, entries![1 1, 2 1]),
];

pub fn square() -> &'static [Row] {
    SQUARE
}

// The corners of the square, and the sums of the rows.
const CORNERS: &[Point3] = &[
    Point3 { x: 0, y: 0, z: 0 },
    Point3 { x: 12, y: 0, z: 0 },
    Point3 { x: 12, y: 12, z: 0 },
    Point3 { x: 0, y: 12, z: -4 },
];

pub fn corners() -> &'static [Point3] {
    CORNERS
}

const SUMS: &[Point3] = &[
    Point3 {
        x: 12,
        y: 12,
        z: -4,
    },
    Point3 {
        x: 24,
        y: 24,
        z: -4,
    },
    Point3 { x: 12, y: 0, z: 0 },
    Point3 { x: 24, y: 12, z: 0 },
];

fn sums() -> &'static [Point3] {
    SUMS
}

// Asserts that the control points ascend and that the numerators sum to the denominator.
fn assert_row(rt: &impl Abort, controls: u32, den: u128, row: &[Entry])
    ensures { IsRow controls (row_of den row.now) }
{
    assert!(rt; 0 < den);
    assert!(rt; den <= NUMBER_BOUND);
    let mut rest = row;
    let mut next = 0;
    let mut left = den;
    while let [entry, others @ ..] = rest {
        assert!(rt; next <= entry.index);
        assert!(rt; entry.index < controls);
        assert!(rt; 0 < entry.numerator);
        assert!(rt; entry.numerator <= left);
        next = entry.index + 1;
        left -= entry.numerator;
        rest = others;
    }
    assert!(rt; left == 0);
}

// Adds rows to a table that has none.
fn add_rows(
    rt: &impl Abort,
    builder: &mut TableBuilder,
    controls: u32,
    rows: &[Row],
) -> Result<(), Memory>
    requires { builder.old.table ≡ no_rows controls }
{
    assert!(rt; rows.len() <= 100);
    for row in rows {
        let &(den, entries) = row;
        assert!(rt; entries.len() <= 100);
        assert_row(rt, controls, den, entries);
        builder.add_row(den, entries)?;
    }
    Ok(())
}

// The table of these rows over four control points.
pub fn table_of(rt: &impl Abort, alloc: Global, rows: &[Row]) -> Result<StencilTable, Memory> {
    let mut builder = TableBuilder::new(alloc, 4);
    add_rows(rt, &mut builder, 4, rows)?;
    Ok(builder.finish())
}

// A row is read back with these entries.
pub fn expect_row(rt: &impl Abort, table: &StencilTable, row: u32, want: &Row)
    requires { row < length table.now.rows }
{
    let &(den, entries) = want;
    expect_same(rt, &table.denominator(row), &den, want);
    expect_same(rt, &(table.row_len(row) as usize), &entries.len(), want);
    for at in 0..table.row_len(row) {
        let (index, numerator) = (table.index(row, at), table.numerator(row, at));
        let entry = Entry { index, numerator };
        expect_same(rt, &Some(&entry), &entries.get(at as usize), want);
    }
}

// The rows are read back with these entries.
pub fn expect_rows(rt: &impl Abort, table: &StencilTable, rows: &[Row]) -> Result<(), Fail> {
    expect_same(rt, &(table.rows() as usize), &rows.len(), &"rows");
    for row in 0..table.rows() {
        let want = rows.get(row as usize).ok_or("a row")?;
        expect_row(rt, table, row, want);
    }
    Ok(())
}

// Control points, rows, entries, and the greatest denominator.
pub fn counts_of(table: &StencilTable) -> (u32, u32, u64, u128) {
    (
        table.controls(),
        table.rows(),
        table.entries(),
        table.greatest(),
    )
}

// Adds the row for which the builder has room.
fn fill_room(rt: &impl Abort, builder: &mut TableBuilder) -> Result<(), Memory>
    requires { builder.old.table ≡ no_rows 4 }
{
    expect_same(rt, &builder.room(), &(1, 3), &"before");
    add_rows(rt, builder, 4, one_row())?;
    expect_same(rt, &builder.room(), &(0, 0), &"after");
    Ok(())
}

#[test]
fn takes_a_row_in_its_room(rt: HostRuntime) -> Result<(), Fail> {
    let mut builder = TableBuilder::with_room(rt.alloc(), 4, 1, 3, Width::Narrow)?;
    fill_room(&rt, &mut builder)?;
    expect_rows(&rt, &builder.finish(), one_row())
}

// The greatest amount of a point.
fn greatest_of_point(p: &Point3) -> u128
    ensures { result ≡ greatest_amount (p.now.x ∷ p.now.y ∷ p.now.z ∷ []) }
{
    p.x.unsigned_abs()
        .max(p.y.unsigned_abs())
        .max(p.z.unsigned_abs())
}

// Whether the table can be evaluated over a control.
fn is_fit(table: &StencilTable, p: &Point3) -> bool
    ensures { result ≡ true → greatest_of table.now * greatest_amount (p.now.x ∷ p.now.y ∷ p.now.z ∷ []) ≤ number_bound }
{
    scale_fits(table, greatest_of_point(p))
}

// Asserts that the table can be evaluated over the controls.
pub fn assert_fits(rt: &impl Abort, table: &StencilTable, controls: &[Point3])
    ensures controls { length controls.now ≡ table.now.controls }
    ensures fits { All (λ p. greatest_of table.now * greatest_amount (p.x ∷ p.y ∷ p.z ∷ []) ≤ number_bound) controls.now }
{
    assert!(rt; controls.len() == table.controls() as usize);
    let are_fit = controls.iter().all(|p| is_fit(table, p));
    assert!(rt; are_fit);
}

// Puts the sums of the rows from one on, then of those before it, in as many steps as the table has entries.
fn apply_in_two<L: Ledger>(
    table: &StencilTable,
    controls: &[Point3],
    split: u32,
    places: &mut [Point3],
    steps: &mut Steps<L>,
)
    requires controls { length controls.now ≡ table.now.controls }
    requires places { length places.old ≡ length table.now.rows }
    requires inside { split ≤ length table.now.rows }
    requires fits { All (λ p. greatest_of table.now * greatest_amount (p.x ∷ p.y ∷ p.z ∷ []) ≤ number_bound) controls.now }
    ensures { steps.new ≡ steps.old + entries_of table.now.rows }
{
    ranges_cover_the_table();
    let at = split as usize;
    apply_range(
        table,
        controls,
        split,
        table.rows(),
        &mut places[at..],
        steps,
    );
    apply_range(table, controls, 0, split, &mut places[..at], steps);
}

// The sums are the same at once, from row 0 on, and in two ranges.
fn expect_sums<L: Ledger>(rt: &impl Abort, table: &StencilTable, blank: Blank)
    requires name { blank.name ≡ L.name }
    requires parts { blank.parts ≡ L.parts }
    requires some { 0 < blank.parts }
{
    assert!(rt; table.rows() == 4);
    let controls = corners();
    assert_fits(rt, table, controls);
    let mut steps = Steps::start(blank.open::<L>());
    for split in [0, 2, 4] {
        let mut places = [Point3 { x: 7, y: 7, z: 7 }; 4];
        apply_in_two(table, controls, split, &mut places, &mut steps);
        expect_same(rt, &places.as_slice(), &sums(), &split);
    }
}

#[test]
fn applies_rows_at_once_and_in_ranges(rt: HostRuntime) -> Result<(), Fail> {
    let table = table_of(&rt, rt.alloc(), square())?;
    expect_sums::<Brand>(&rt, &table, Blank::new(1));
    Ok(())
}
