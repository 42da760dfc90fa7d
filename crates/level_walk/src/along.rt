//! A walk from a level to a depth.

ghost use Rattle.std.specs.Prelude.{◌≡◌, Err, MatchResult};
ghost use Rattle.level_walk.specs.Walk.{IsWalk, at};

use crate::carrier::Carrier;
use crate::fault::{Cause, WalkFault};
use crate::reached::Reached;
use crate::round::round;
use crate::step::NextLevel;
use crate::visitor::Visitor;
use ratio128::Steps;
use std::alloc::Global;
use std::sync::ledger::Ledger;

// Returns the result of a round; a fault gets the number of the level.
fn numbered<T>(reached: Result<T, Cause>, number: u32) -> Result<T, WalkFault>
    ensures { MatchResult reached
        (λ reached. result ≡ Ok reached)
        (λ cause. result ≡ Err (record { level = number; cause = cause })) }
{
    match reached {
        Ok(reached) => Ok(reached),
        Err(cause) => Err(WalkFault {
            level: number,
            cause,
        }),
    }
}

/// Walks `depth` levels from the start. Returns the last level and the data that the carrier brought there. The step must be
/// ready for that many levels, and the data must fit the start. The walk keeps two levels at a time.
/// Once the next level is made, the visitor takes the level before it, with its data.
///
/// Reports the cause for the first level that is not reached, with its number, counted from 1. The walk then drops the level
/// and the data it has. The visitor keeps what it took, unless memory ran out for it.
pub fn walk<S: NextLevel<L>, C: Carrier<L>, V: Visitor<S::Level, C::Carried>, L: Ledger>(
    alloc: Global,
    step: &S,
    carrier: &C,
    visitor: &mut V,
    start: Reached<S::Level, C::Carried>,
    depth: u32,
    steps: &mut Steps<L>,
) -> Result<Reached<S::Level, C::Carried>, WalkFault>
    requires ready { S.IsReady step.now start.level depth }
    requires fits { C.Fits carrier.now (S.level_of start.level) start.carried }
    ensures { IsWalk S.level_of (S.Makes step.now) (S.Refuses step.now) (C.Follows carrier.now) (C.Fails carrier.now) V.Takes (at start visitor.old steps.old) depth result visitor.new steps.new }
{
    let mut reached = start;
    for k in 0..depth {
        reached = numbered(round(alloc, step, carrier, visitor, reached, steps), k + 1)?;
    }
    Ok(reached)
}
