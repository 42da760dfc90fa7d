//! The sparse levels of a channel.

ghost use Rattle.std.specs.Prelude.{◌≤◌, map, MatchResult};
ghost use Rattle.feature_select.specs.Rule.{AnswersTest};
ghost use Rattle.channel_refine.specs.Evaluated.{control_rows};
ghost use Rattle.channel_refine.specs.Refined.{AreControls};
ghost use Rattle.channel_refine.specs.SparseRefined.{AreSparseSteps, IsSparseFaultTo};
ghost use Rattle.channel_refine.specs.SparseView.{AreSparseValuesTo};

use crate::base::BaseChannel;
use crate::sparse_compose::compose_sparse;
use crate::sparse_points::used_points;
use crate::sparse_valued::all_values;
use feature_select::{FaceTest, SelectRule};
use level_topology::FaceFacts;
use level_walk::WalkFault;
use ratio128::{Primvar, Steps};
use sparse_level::SparseValues;
use std::alloc::Global;
use std::sync::ledger::Ledger;

/// Returns the sparse levels of a channel from 0 to `depth`. The rule selects the faces that the next level refines. Level 0 lists the
/// corners of its faces in the order of their first appearance; each later level lists all its points.
///
/// `controls` has one value for each point of level 0, as many numbers for each, none above the channel's greatest amount. Each value
/// returned is the one of the whole level, over the common denominator of its point. The call counts at most one step for each face of
/// the levels after the first and one for each entry of the tables.
///
/// The error is the first fault of the first level, counted from 1, that the call cannot make. More than 2^22 present faces comes first;
/// then the variants of [`OverflowKind`](level_walk::OverflowKind) in their order, with `TooManyEntries` before the last. Only numbers of
/// present points count. `Memory` may come at any level. The call drops the channel in any case.
pub fn refine_sparse<P: Primvar<L>, T: FaceTest, F: Fn(&FaceFacts) -> bool, L: Ledger>(
    alloc: Global,
    base: BaseChannel,
    rule: &SelectRule<T, F>,
    controls: &[P],
    depth: u32,
    steps: &mut Steps<L>,
) -> Result<Vec<SparseValues<P>>, WalkFault>
    requires depth { depth ≤ 10 }
    requires controls { AreControls base (control_rows (map P.numbers controls.now)) }
    requires answers { AnswersTest F.Fn rule.now.0 (T.meets rule.now.1) }
    ensures refined { MatchResult result
        (λ levels. AreSparseValuesTo P.numbers (T.meets rule.now.1) base controls.now depth levels.items)
        (IsSparseFaultTo (T.meets rule.now.1) base depth) }
    ensures steps { AreSparseSteps (T.meets rule.now.1) base depth steps.old steps.new }
{
    let first = used_points(alloc, base.level())?;
    let levels = compose_sparse(alloc, base, rule, depth, steps)?;
    let values = all_values(alloc, levels, &first, controls, steps)?;
    Ok(values)
}
