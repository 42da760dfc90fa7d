//! A channel refined level by level.

ghost use Rattle.std.specs.Prelude.{◌≡◌, ◌≤◌, Err, IsOkAnd, MatchResult};
ghost use Rattle.subdiv_model.specs.Channel.{Values};
ghost use Rattle.primvar_refine.specs.View.{rows_of};
ghost use Rattle.channel_refine.specs.Refined.{AreControls, IsRefinement, AreRefineSteps};
ghost use Rattle.channel_refine.specs.View.{refined_of};

use crate::base::BaseChannel;
use crate::values::ByValues;
use level_topology::Level;
use level_walk::{Dropped, Reached, Uniform, WalkFault, walk};
use primvar_refine::Valued;
use ratio128::{Primvar, Steps};
use std::alloc::Global;
use std::marker::PhantomData;
use std::sync::ledger::Ledger;

/// A level with the value of each of its points.
#[derive(Drop)]
pub struct RefinedChannel<P> {
    /// The level.
    pub level: Level,
    /// The value of each point, over the point's common denominator.
    pub values: Vec<Valued<P>>,
}

impl<P> RefinedChannel<P> {
    // Returns a level with its values, or the error of the values.
    pub(crate) fn of<E>(
        level: Level,
        values: Result<Vec<Valued<P>>, E>,
    ) -> Result<RefinedChannel<P>, E>
        ensures { MatchResult values
            (λ found. IsOkAnd result (λ channel. channel ≡ record { level = level; values = found }))
            (λ fault. result ≡ Err fault) }
    {
        values.map(|values| RefinedChannel { level, values })
    }
}

/// Returns the last level of a channel with the values of its points. The call refines level by level and keeps two levels at a time. It
/// counts one step for each mask term, and at most one for each face of the levels from 1 to `depth`.
///
/// `controls` has one value over 1 for each point of level 0: as many numbers for each point, none above the channel's greatest amount.
/// Each value returned has the common denominator of its point.
///
/// The error is the first fault of the first level, counted from 1, that the call cannot make. Too many faces comes first; then the
/// variants of [`OverflowKind`](level_walk::OverflowKind) in their order. `TooManyEntries` never comes. `Memory` has level 0 if memory
/// runs out outside the walk. The call drops the channel and the controls in any case.
pub fn refine_channel<P: Primvar<L>, L: Ledger>(
    alloc: Global,
    base: BaseChannel,
    controls: Vec<Valued<P>>,
    depth: u32,
    steps: &mut Steps<L>,
) -> Result<RefinedChannel<P>, WalkFault>
    requires depth { depth ≤ 10 }
    requires controls { AreControls base (rows_of P.numbers controls.items) }
    ensures refined { IsRefinement Values base (rows_of P.numbers controls.items) depth result (refined_of P.numbers) }
    ensures steps { AreRefineSteps Values base depth result steps.old steps.new }
{
    base.facts();
    let scheme = base.scheme();
    let most = base.most();
    let by = ByValues {
        scheme,
        most,
        of: PhantomData,
    };
    let level = base.into_level();
    level.facts();
    let start = Reached {
        level,
        carried: controls,
    };
    let reached = walk(alloc, &Uniform, &by, &mut Dropped, start, depth, steps)?;
    Ok(RefinedChannel {
        level: reached.level,
        values: reached.carried,
    })
}
