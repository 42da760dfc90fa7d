//! A channel refined by its table or level by level.

ghost use Rattle.std.specs.Prelude.{◌≡◌, ◌≤◌, map, IfOk};
ghost use Rattle.subdiv_model.specs.Channel.{Values};
ghost use Rattle.channel_refine.specs.Refined.{AreControls, IsRefinement, AreRefineSteps};
ghost use Rattle.channel_refine.specs.Evaluated.{control_rows};
ghost use Rattle.channel_refine.specs.View.{asked_of_path, control_of, refined_of};

use crate::base::BaseChannel;
use crate::by_table::refine_by_table;
use crate::refine::{RefinedChannel, refine_channel};
use level_walk::WalkFault;
use primvar_refine::Valued;
use ratio128::{Memory, Primvar, Steps};
use std::alloc::Global;
use std::sync::ledger::Ledger;

/// The way to refine a channel. Both ways return the same values, but only tables have `TooManyEntries`.
#[derive(Clone, Copy, Debug, PartialEq, Eq)]
pub enum Path {
    /// By its table, which the call evaluates once.
    Table,
    /// Level by level.
    Levels,
}

// Returns control numbers as values over 1.
fn controls_of<P: Copy + Drop>(alloc: Global, numbers: &[P]) -> Result<Vec<Valued<P>>, Memory>
    ensures { IfOk result (λ controls. controls.items ≡ map control_of numbers.now) }
{
    let mut controls = Vec::with_capacity(alloc, numbers.len())?;
    for value in numbers {
        controls.push(Valued {
            value: *value,
            den: 1,
        })?;
    }
    Ok(controls)
}

// Returns a channel refined level by level.
fn refine_by_levels<P: Primvar<L> + Copy, L: Ledger>(
    alloc: Global,
    base: BaseChannel,
    controls: &[P],
    depth: u32,
    steps: &mut Steps<L>,
) -> Result<RefinedChannel<P>, WalkFault>
    requires depth { depth ≤ 10 }
    requires controls { AreControls base (control_rows (map P.numbers controls.now)) }
    ensures refined { IsRefinement Values base (control_rows (map P.numbers controls.now)) depth result (refined_of P.numbers) }
    ensures steps { AreRefineSteps Values base depth result steps.old steps.new }
{
    let values = controls_of(alloc, controls)?;
    refine_channel(alloc, base, values, depth, steps)
}

/// Returns the last level of a channel with the values of its points, by the path. [`refine_by_table`] and [`refine_channel`] describe
/// the two paths and their errors.
pub fn refine_along<P: Primvar<L> + Copy, L: Ledger>(
    alloc: Global,
    base: BaseChannel,
    controls: &[P],
    path: Path,
    depth: u32,
    steps: &mut Steps<L>,
) -> Result<RefinedChannel<P>, WalkFault>
    requires depth { depth ≤ 10 }
    requires controls { AreControls base (control_rows (map P.numbers controls.now)) }
    ensures refined { IsRefinement (asked_of_path path) base (control_rows (map P.numbers controls.now)) depth result (refined_of P.numbers) }
    ensures steps { AreRefineSteps (asked_of_path path) base depth result steps.old steps.new }
{
    match path {
        Path::Table => refine_by_table(alloc, base, controls, depth, steps),
        Path::Levels => refine_by_levels(alloc, base, controls, depth, steps),
    }
}
