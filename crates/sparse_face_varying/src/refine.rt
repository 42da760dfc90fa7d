//! Sparse levels of a texture channel at faces that are selected by number.

ghost use Rattle.std.specs.Prelude.{◌≡◌, ◌+◌, ◌^◌, ◌<◌, ◌≤◌, length, map, IfOk, MatchResult};
ghost use Rattle.std.specs.List.Sorted.{IsStrictlyIncreasing};
ghost use Rattle.channel_refine.specs.Evaluated.{control_rows};
ghost use Rattle.channel_refine.specs.Refined.{AreControls};
ghost use Rattle.sparse_refiner.specs.Refined.{IsNextOf, IsRefined, IsRefusal, SparseOf, places_for};
ghost use Rattle.channel_refine.specs.SparseRefined.{IsSparseFault};
ghost use Rattle.channel_refine.specs.SparseView.{AreValuesTo};
ghost use Rattle.sparse_texture_laws.specs.Selection.{IsSelection, is_chosen};
ghost use Rattle.sparse_face_varying.specs.Steps.{ArePredicateSteps};

use crate::chosen::{Chosen, ChosenLevels, is_chosen, is_chosen_in};
use channel_refine::{BaseChannel, refine_sparse};
use feature_select::SelectRule;
use level_topology::FaceFacts;
use level_walk::WalkFault;
use ratio128::{Primvar, Steps};
use sparse_level::SparseValues;
use sparse_refiner::{RefineFault, SparseLevel, SparseStep, refine_selected};
use std::alloc::Global;
use std::sync::ledger::Ledger;

/// Returns the next sparse level of a channel. The step selects the faces whose number is in `numbers`, which ascend, and that are not
/// holes. The call counts at most one step for each new face.
///
/// Errors:
///
/// - `TooLarge`: the level would have more than 2^22 new faces; it names their number and comes before anything is made;
/// - `Chaikin`: the least vertex of a selected face at which the half of an edge overflows;
/// - `Memory`.
pub fn refine_like<L: Ledger>(
    alloc: Global,
    channel: &SparseLevel,
    numbers: &[u64],
    steps: &mut Steps<L>,
) -> Result<SparseStep, RefineFault>
    requires depth { channel.now.depth < 10 }
    requires ascending { IsStrictlyIncreasing numbers.now }
    ensures refined { MatchResult result (IsRefined (is_chosen numbers.now) channel.now) (IsRefusal (is_chosen numbers.now) channel.now) }
    ensures sparse { (of : SparseOf (is_chosen numbers.now) channel.now) → IfOk result (IsNextOf of) }
    ensures steps { steps.new ≤ steps.old + length (places_for (is_chosen numbers.now) channel.now) }
    ensures later { steps.old ≤ steps.new }
    ensures early { 2 ^ 22 < length (places_for (is_chosen numbers.now) channel.now) → steps.new ≡ steps.old }
{
    let rule = SelectRule::with(Chosen { numbers }, |facts: &FaceFacts| {
        is_chosen(numbers, facts)
    });
    refine_selected(alloc, channel, &rule, steps)
}

/// Returns the sparse levels of a channel from 0 to `depth`. `numbers` lists the faces to select for each level below `depth`: ascending,
/// and no holes. The call counts at most one step for each face of the levels after the first, and one for each table entry of a present
/// point.
///
/// `controls` has one value for each point of level 0, as many numbers for each, none above the channel's greatest amount.
///
/// The error is the first fault of the first level, counted from 1, that the call cannot make. More than 2^22 present faces comes first;
/// then the variants of [`OverflowKind`](level_walk::OverflowKind) in their order, with `TooManyEntries` before the last. `Memory` may
/// come at any level.
pub fn refine_sparse_texture<P: Primvar<L>, L: Ledger>(
    alloc: Global,
    base: BaseChannel,
    numbers: &[Vec<u64>],
    controls: &[P],
    depth: u32,
    steps: &mut Steps<L>,
) -> Result<Vec<SparseValues<P>>, WalkFault>
    requires depth { depth ≤ 10 }
    requires controls { AreControls base (control_rows (map P.numbers controls.now)) }
    requires selection { IsSelection base.base depth (map (λ n. n.items) numbers.now) }
    ensures refined { MatchResult result
        (λ made. AreValuesTo P.numbers base (map (λ n. n.items) numbers.now) controls.now depth made.items)
        (IsSparseFault base (map (λ n. n.items) numbers.now) depth) }
    ensures steps { ArePredicateSteps base (map (λ n. n.items) numbers.now) depth steps.old steps.new }
{
    let rule = SelectRule::with(ChosenLevels { levels: numbers }, |facts: &FaceFacts| {
        is_chosen_in(numbers, facts)
    });
    refine_sparse(alloc, base, &rule, controls, depth, steps)
}
