//! The table of a channel at a depth.

ghost use Rattle.std.specs.Prelude.{◌≤◌, MatchResult};
ghost use Rattle.subdiv_model.specs.Channel.{Tables};
ghost use Rattle.level_walk.specs.UniformFaults.{IsChannelFault};
ghost use Rattle.level_walk.specs.UniformLevels.{AreLevelSteps};
ghost use Rattle.channel_refine.specs.Composed.{IsComposedTo};
ghost use Rattle.channel_refine.specs.View.{composed_of};

use crate::base::BaseChannel;
use crate::table::ByTable;
use level_topology::Level;
use level_walk::{Dropped, Reached, Uniform, WalkFault, walk};
use ratio128::Steps;
use std::alloc::Global;
use std::sync::ledger::Ledger;
use stencil_apply::StencilTable;
use stencil_factory::identity;

/// A level and the table of its points over the points of level 0.
#[derive(Drop)]
pub struct ComposedChannel {
    /// The level.
    pub level: Level,
    /// The table of its points over the points of level 0.
    pub table: StencilTable,
}

/// Returns the last level of a channel and the table of its points over the points of level 0. The call composes the table level by level
/// and keeps two levels at a time. The call counts at most one step for each face of the levels from 1 to `depth`.
///
/// The error is the first fault of the first level, counted from 1, that has no table. Too many faces comes first; then the variants of
/// [`OverflowKind`](level_walk::OverflowKind) in their order, with `TooManyEntries` before the last. `Memory` has level 0 if memory runs
/// out outside the walk. The call drops the channel in any case.
pub fn compose_channel<L: Ledger>(
    alloc: Global,
    base: BaseChannel,
    depth: u32,
    steps: &mut Steps<L>,
) -> Result<ComposedChannel, WalkFault>
    requires { depth ≤ 10 }
    ensures composed { MatchResult result
        (λ composed. IsComposedTo base depth (composed_of composed))
        (λ fault. IsChannelFault Tables base depth fault) }
    ensures steps { AreLevelSteps base.base depth steps.old steps.new }
{
    base.facts();
    let scheme = base.scheme();
    let most = base.most();
    let by = ByTable { scheme, most };
    let level = base.into_level();
    level.facts();
    let carried = identity(alloc, level.points())?;
    let start = Reached { level, carried };
    let reached = walk(alloc, &Uniform, &by, &mut Dropped, start, depth, steps)?;
    Ok(ComposedChannel {
        level: reached.level,
        table: reached.carried,
    })
}
