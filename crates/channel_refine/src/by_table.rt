//! A channel refined by its table.

ghost use Rattle.std.specs.Prelude.{◌≡◌, ◌+◌, ◌≤◌, map, IfOk, OnOk};
ghost use Rattle.subdiv_model.specs.Channel.{Tables};
ghost use Rattle.stencil_apply.specs.Table.{entries_of};
ghost use Rattle.channel_refine.specs.Refined.{AreControls, IsRefinement, AreRefineSteps};
ghost use Rattle.channel_refine.specs.Evaluated.{CanEvaluate, control_rows, evaluated};
ghost use Rattle.channel_refine.specs.View.{refined_of};

use crate::base::BaseChannel;
use crate::compose::{ComposedChannel, compose_channel};
use crate::evaluated::evaluate;
use crate::refine::RefinedChannel;
use level_walk::WalkFault;
use ratio128::{Memory, Primvar, Steps};
use std::alloc::Global;
use std::sync::ledger::Ledger;

// Returns the level with the values of its table over the controls.
fn with_values<P: Primvar<L>, L: Ledger>(
    alloc: Global,
    composed: ComposedChannel,
    controls: &[P],
    steps: &mut Steps<L>,
) -> Result<RefinedChannel<P>, Memory>
    requires { CanEvaluate composed.table (map P.numbers controls.now) }
    ensures refined { IfOk result (λ refined. refined_of P.numbers refined ≡ record { level = composed.level; rows = evaluated composed.table (map P.numbers controls.now) }) }
    ensures taken { OnOk result (steps.new ≡ steps.old + entries_of composed.table.rows) }
    ensures steps { steps.new ≤ steps.old + entries_of composed.table.rows }
    ensures later { steps.old ≤ steps.new }
{
    let ComposedChannel { level, table } = composed;
    let values = evaluate(alloc, &table, controls, steps);
    RefinedChannel::of(level, values)
}

/// Returns the last level of a channel with the values of its points. The call composes the table of the channel level by level, then
/// evaluates it once over `controls`.
///
/// `controls` has one value for each point of level 0: whole numbers, as many for each point, none above the channel's greatest amount.
/// Each value returned has the common denominator of its point. The call counts one step for each entry of the last table, and at most
/// one for each face of the levels from 1 to `depth`.
///
/// The error is the fault of the first level, counted from 1, that has no table; [`compose_channel`] gives the order. The call drops the
/// channel in any case.
pub fn refine_by_table<P: Primvar<L>, L: Ledger>(
    alloc: Global,
    base: BaseChannel,
    controls: &[P],
    depth: u32,
    steps: &mut Steps<L>,
) -> Result<RefinedChannel<P>, WalkFault>
    requires depth { depth ≤ 10 }
    requires controls { AreControls base (control_rows (map P.numbers controls.now)) }
    ensures refined { IsRefinement Tables base (control_rows (map P.numbers controls.now)) depth result (refined_of P.numbers) }
    ensures steps { AreRefineSteps Tables base depth result steps.old steps.new }
{
    let composed = compose_channel(alloc, base, depth, steps)?;
    composed.table.facts();
    let refined = with_values(alloc, composed, controls, steps)?;
    Ok(refined)
}
