//! One round of a walk.

ghost use Rattle.std.specs.Prelude.{◌≡◌, ℕ, suc, Ok, Err, IfOk, MatchResult};
ghost use Rattle.level_walk.specs.Round.{IsRound, IsLeftFor, IsTakenRound};

use crate::carrier::Carrier;
use crate::fault::Cause;
use crate::reached::Reached;
use crate::step::NextLevel;
use crate::visitor::Visitor;
use ratio128::Steps;
use std::alloc::Global;
use std::sync::ledger::Ledger;

// Returns a level with its data, or the cause that the data cannot follow to it.
fn joined<W: Drop, C>(level: W, carried: Result<C, Cause>) -> Result<Reached<W, C>, Cause>
    ensures { MatchResult carried (λ carried. result ≡ Ok (record { level = level; carried = carried })) (λ cause. result ≡ Err cause) }
{
    match carried {
        Ok(carried) => Ok(Reached { level, carried }),
        Err(cause) => Err(cause),
    }
}

// Returns the next level and its data.
fn next<S: NextLevel<L>, C: Carrier<L>, L: Ledger>(
    alloc: Global,
    step: &S,
    carrier: &C,
    from: &Reached<S::Level, C::Carried>,
    steps: &mut Steps<L>,
) -> Result<Reached<S::Level, C::Carried>, Cause>
    requires ready { (left : ℕ) × S.IsReady step.now from.now.level (suc left) }
    requires fits { C.Fits carrier.now (S.level_of from.now.level) from.now.carried }
    ensures made { IsRound S.level_of (S.Makes step.now) (S.Refuses step.now) (C.Follows carrier.now) (C.Fails carrier.now) from.now result steps.old steps.new }
    ensures ready { (left : ℕ) → S.IsReady step.now from.now.level (suc left) → IfOk result (λ next. S.IsReady step.now next.level left) }
    ensures fits { IfOk result (λ next. C.Fits carrier.now (S.level_of next.level) next.carried) }
{
    let next = step.next_level(alloc, &from.level, steps)?;
    let carried = carrier.follow(
        alloc,
        S::level(&from.level),
        S::child(&next),
        &from.carried,
        steps,
    );
    joined(S::into_level(next), carried)
}

// Gives the visitor the level that is left behind.
fn leave<V: Visitor<W, C>, W: Drop, C: Drop>(
    visitor: &mut V,
    from: Reached<W, C>,
    next: Reached<W, C>,
) -> Result<Reached<W, C>, Cause>
    ensures { MatchResult result
        (λ kept. (kept ≡ next) × V.Takes visitor.old from.level from.carried visitor.new)
        (λ cause. cause ≡ Cause.Memory) }
{
    match visitor.leave(from.level, from.carried) {
        Ok(()) => Ok(next),
        Err(_) => Err(Cause::Memory),
    }
}

// Gives the visitor the level that is left behind, if there is a next one. Otherwise the visitor takes nothing.
fn leave_for<V: Visitor<W, C>, W: Drop, C: Drop>(
    visitor: &mut V,
    from: Reached<W, C>,
    next: Result<Reached<W, C>, Cause>,
) -> Result<Reached<W, C>, Cause>
    ensures { IsLeftFor V.Takes from next result visitor.old visitor.new }
{
    match next {
        Ok(next) => leave(visitor, from, next),
        Err(why) => Err(why),
    }
}

// Returns the next level and its data; the visitor takes the level that is left behind. After a fault the visitor is as
// before, unless memory ran out for it.
pub(crate) fn round<S: NextLevel<L>, C: Carrier<L>, V: Visitor<S::Level, C::Carried>, L: Ledger>(
    alloc: Global,
    step: &S,
    carrier: &C,
    visitor: &mut V,
    from: Reached<S::Level, C::Carried>,
    steps: &mut Steps<L>,
) -> Result<Reached<S::Level, C::Carried>, Cause>
    requires ready { (left : ℕ) × S.IsReady step.now from.level (suc left) }
    requires fits { C.Fits carrier.now (S.level_of from.level) from.carried }
    ensures made { IsTakenRound S.level_of (S.Makes step.now) (S.Refuses step.now) (C.Follows carrier.now) (C.Fails carrier.now)
        V.Takes from result visitor.old visitor.new steps.old steps.new }
    ensures ready { (left : ℕ) → S.IsReady step.now from.level (suc left) → IfOk result (λ next. S.IsReady step.now next.level left) }
    ensures fits { IfOk result (λ next. C.Fits carrier.now (S.level_of next.level) next.carried) }
{
    let next = next(alloc, step, carrier, &from, steps);
    leave_for(visitor, from, next)
}
