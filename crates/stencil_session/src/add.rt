//! The difference of a moved control, and its addition to the values of the rows that have the control.

ghost use Rattle.std.specs.Prelude.{◌≡◌, ◌+◌, ◌^◌, ◌<◌, ◌≤◌, pos, ◌-ℤ◌, unsigned_abs, true, [], ◌∷◌, length, map, get_or, set};
ghost use Rattle.subdiv_model.specs.Channel.{number_bound};
ghost use Rattle.ratio128.specs.Numbers.{greatest_amount, CanAdd};
ghost use Rattle.ratio128.specs.declared.point.Point3.{Point3};
ghost use Rattle.stencil_session.specs.Session.{numbers_of};
ghost use Rattle.stencil_session.specs.Columns.{marked, AreAdded, CanAddColumn};
ghost use Rattle.stencil_session.specs.Kept.{difference_of};

use crate::columns::Columns;
use crate::marks::Marks;
use ratio128::{Point3, Primvar, Steps};
use std::sync::ledger::Ledger;

// Returns a number minus another.
fn minus(number: i128, other: i128) -> i128
    requires number { unsigned_abs number ≤ number_bound }
    requires other { unsigned_abs other ≤ number_bound }
    ensures { result ≡ number -ℤ other }
{
    number - other
}

// Returns each number of a point minus that of another.
pub(crate) fn difference(target: &Point3, control: &Point3) -> Point3
    requires target { greatest_amount (numbers_of target.now) ≤ number_bound }
    requires control { greatest_amount (numbers_of control.now) ≤ number_bound }
    ensures { numbers_of result ≡ difference_of (numbers_of target.now) (numbers_of control.now) }
{
    let x = minus(target.x, control.x);
    let y = minus(target.y, control.y);
    let z = minus(target.z, control.z);
    Point3 { x, y, z }
}

// Adds a numerator times a difference to the value of a row, and marks the row. It is one step.
fn add_entry<L: Ledger>(
    row: u32,
    numerator: u128,
    difference: &Point3,
    values: &mut Vec<Point3>,
    marks: &mut Marks,
    steps: &mut Steps<L>,
)
    requires value { row < length values.old.items }
    requires mark { row < length marks.old }
    requires short { numerator < 2 ^ 127 }
    requires fits { (d : Point3) → CanAdd (pos numerator) (numbers_of (get_or values.old.items row d)) (numbers_of difference.now) }
    ensures values { AreAdded ((row, numerator) ∷ []) (numbers_of difference.now) values.old.items values.new.items }
    ensures long { length values.new.items ≡ length values.old.items }
    ensures marks { marks.new ≡ set marks.old row true }
    ensures step { steps.new ≡ steps.old + 1 }
{
    marks.mark(row);
    values[row as usize].add_with_weight(numerator as i128, difference, steps);
}

// Adds each numerator of a control times a difference to the value of its row, and marks the row. Each entry of the column is
// one step.
pub(crate) fn add_column<L: Ledger>(
    columns: &Columns,
    control: u32,
    difference: &Point3,
    values: &mut Vec<Point3>,
    marks: &mut Marks,
    steps: &mut Steps<L>,
)
    requires inside { control < length columns.now }
    requires marks { length marks.old ≡ length values.old.items }
    requires fits { CanAddColumn (get_or columns.now control []) (map numbers_of values.old.items) (numbers_of difference.now) }
    ensures values { AreAdded (get_or columns.now control []) (numbers_of difference.now) values.old.items values.new.items }
    ensures long { length values.new.items ≡ length values.old.items }
    ensures marks { marks.new ≡ marked marks.old (get_or columns.now control []) }
    ensures steps { steps.new ≡ steps.old + length (get_or columns.now control []) }
{
    let rows = columns.rows(control);
    let numerators = columns.numerators(control);
    for at in 0..rows.len() {
        add_entry(
            rows[at],
            numerators.get(at),
            difference,
            values,
            marks,
            steps,
        );
    }
}
