//! The values of some rows of a table.

ghost use Rattle.std.specs.Prelude.{◌≡◌, ◌+◌, ◌≤◌, [], length, map, get_or, IfOk, OnOk};
ghost use Rattle.std.specs.Vec.{vec_capacity};
ghost use Rattle.stencil_apply.specs.Table.{entries_of};
ghost use Rattle.primvar_refine.specs.View.{rows_of};
ghost use Rattle.channel_refine.specs.Evaluated.{CanEvaluate, evaluated};
ghost use Rattle.channel_refine.specs.SparseComposed.{HasRows, rows_at};

use primvar_refine::Valued;
use ratio128::{Memory, Primvar, Steps};
use std::alloc::Global;
use std::sync::ledger::Ledger;
use stencil_apply::{StencilTable, sum_at, sum_width};

// Adds the value of each chosen row to `values`, which has capacity for all.
fn push_rows<P: Primvar<L>, L: Ledger>(
    table: &StencilTable,
    rows: &[u32],
    controls: &[P],
    like: &P,
    values: &mut Vec<Valued<P>>,
    steps: &mut Steps<L>,
)
    requires can { CanEvaluate table.now (map P.numbers controls.now) }
    requires has_rows { HasRows table.now rows.now }
    requires like { P.numbers like.now ≡ get_or (map P.numbers controls.now) 0 [] }
    requires empty { values.old.items ≡ [] }
    requires room { length rows.now ≤ vec_capacity values.old }
    ensures values { rows_of P.numbers values.new.items ≡ evaluated (rows_at table.now rows.now) (map P.numbers controls.now) }
    ensures steps { steps.new ≡ steps.old + entries_of (rows_at table.now rows.now).rows }
{
    table.facts();
    let width = sum_width(table, controls);
    for row in rows {
        let value = sum_at(table, *row, controls, like, width, steps);
        values.push_reserved(Valued {
            value,
            den: table.denominator(*row),
        });
    }
}

// Returns the value of each chosen row of a table over its denominator. The call counts one step for each entry of these rows.
pub(crate) fn evaluate_rows<P: Primvar<L>, L: Ledger>(
    alloc: Global,
    table: &StencilTable,
    rows: &[u32],
    controls: &[P],
    steps: &mut Steps<L>,
) -> Result<Vec<Valued<P>>, Memory>
    requires can { CanEvaluate table.now (map P.numbers controls.now) }
    requires has_rows { HasRows table.now rows.now }
    ensures values { IfOk result (λ values. rows_of P.numbers values.items ≡ evaluated (rows_at table.now rows.now) (map P.numbers controls.now)) }
    ensures taken { OnOk result (steps.new ≡ steps.old + entries_of (rows_at table.now rows.now).rows) }
    ensures steps { steps.new ≤ steps.old + entries_of (rows_at table.now rows.now).rows }
    ensures later { steps.old ≤ steps.new }
{
    table.facts();
    let mut values = Vec::with_capacity(alloc, rows.len())?;
    let Some(like) = controls.first() else {
        return Ok(values);
    };
    push_rows(table, rows, controls, like, &mut values, steps);
    Ok(values)
}
