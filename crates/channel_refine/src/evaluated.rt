//! The values of a table over controls.

ghost use Rattle.std.specs.Prelude.{◌≡◌, ◌+◌, ◌≤◌, [], length, map, get_or, IfOk, OnOk};
ghost use Rattle.std.specs.Vec.{vec_capacity};
ghost use Rattle.stencil_apply.specs.Table.{entries_of};
ghost use Rattle.primvar_refine.specs.View.{rows_of};
ghost use Rattle.channel_refine.specs.Evaluated.{CanEvaluate, evaluated};

use primvar_refine::Valued;
use ratio128::{Memory, Primvar, Steps};
use std::alloc::Global;
use std::sync::ledger::Ledger;
use stencil_apply::{StencilTable, sum_at, sum_width};

// Adds the value of each row to `values`, which has capacity for all.
fn push_rows<P: Primvar<L>, L: Ledger>(
    table: &StencilTable,
    controls: &[P],
    like: &P,
    values: &mut Vec<Valued<P>>,
    steps: &mut Steps<L>,
)
    requires can { CanEvaluate table.now (map P.numbers controls.now) }
    requires like { P.numbers like.now ≡ get_or (map P.numbers controls.now) 0 [] }
    requires empty { values.old.items ≡ [] }
    requires fits { length table.now.rows ≤ vec_capacity values.old }
    ensures values { rows_of P.numbers values.new.items ≡ evaluated table.now (map P.numbers controls.now) }
    ensures steps { steps.new ≡ steps.old + entries_of table.now.rows }
{
    table.facts();
    let width = sum_width(table, controls);
    for row in 0..table.rows() {
        let value = sum_at(table, row, controls, like, width, steps);
        values.push_reserved(Valued {
            value,
            den: table.denominator(row),
        });
    }
}

/// Returns the value of each row of a table over `controls`, with the row's denominator. The call counts exactly one step for each entry.
///
/// `controls` has one value for each control point, as many numbers for each. The greatest denominator of the table times each amount in
/// the controls is at most 2^126 - 1.
pub fn evaluate<P: Primvar<L>, L: Ledger>(
    alloc: Global,
    table: &StencilTable,
    controls: &[P],
    steps: &mut Steps<L>,
) -> Result<Vec<Valued<P>>, Memory>
    requires { CanEvaluate table.now (map P.numbers controls.now) }
    ensures values { IfOk result (λ values. rows_of P.numbers values.items ≡ evaluated table.now (map P.numbers controls.now)) }
    ensures taken { OnOk result (steps.new ≡ steps.old + entries_of table.now.rows) }
    ensures steps { steps.new ≤ steps.old + entries_of table.now.rows }
    ensures later { steps.old ≤ steps.new }
{
    table.facts();
    let mut values = Vec::with_capacity(alloc, table.rows() as usize)?;
    let Some(like) = controls.first() else {
        return Ok(values);
    };
    push_rows(table, controls, like, &mut values, steps);
    Ok(values)
}
