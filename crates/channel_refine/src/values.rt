//! The values of a channel, carried from level to level within the bounds of numbers.

ghost use Rattle.std.specs.Prelude.{◌≡◌, ◌+◌, ◌*◌, ◌≤◌, nat_le, map, IfOk, OnOk};
ghost use Rattle.subdiv_model.specs.Channel.{number_bound};
ghost use Rattle.subdiv_model.specs.Mask.{CatmullClark};
ghost use Rattle.mask_rules.specs.View.{scheme_of};
ghost use Rattle.primvar_refine.specs.Rows.{greatest_of};
ghost use Rattle.primvar_refine.specs.View.{rows_of};
ghost use Rattle.child_masks.specs.Masks.{CanRefine, step_terms};
ghost use Rattle.channel_refine.specs.Step.{AreValues, AreNextValues};
ghost use Rattle.channel_refine.specs.Causes.{cause_of_value};

use level_topology::{Child, Level};
use level_walk::{Carrier, Cause, OverflowKind};
use mask_rules::Scheme;
use primvar_refine::{ValueFault, Valued, refine_values};
use ratio128::limits::NUMBER_BOUND;
use ratio128::{Primvar, Steps, times_within};
use std::alloc::Global;
use std::marker::PhantomData;
use std::sync::ledger::Ledger;

// Returns the greatest denominator of the values, or 1 if there are none.
fn greatest_den<P>(values: &[Valued<P>]) -> u128
    ensures { result ≡ greatest_of (map (λ v. v.den) values.now) }
{
    let mut greatest = 1;
    for value in values {
        greatest = greatest.max(value.den);
    }
    greatest
}

// Returns whether the greatest denominator times an amount is at most 2^126 - 1.
fn fits<P>(values: &[Valued<P>], most: u128) -> bool
    ensures { result ≡ nat_le (greatest_of (map (λ v. v.den) values.now) * most) number_bound }
{
    times_within(greatest_den(values), most, NUMBER_BOUND).is_some()
}

// Returns the cause of a walk for a fault of values.
fn value_cause(fault: ValueFault) -> Cause
    ensures { result ≡ cause_of_value fault }
{
    match fault {
        ValueFault::Transition(_) => Cause::Overflow(OverflowKind::Transition),
        ValueFault::Denominator(_) => Cause::Overflow(OverflowKind::Denominator),
        ValueFault::TooBig(_) => Cause::Overflow(OverflowKind::Value),
        ValueFault::Memory => Cause::Memory,
    }
}

// Returns the values of the points of a child level. No value of the level has an amount above `most`. Returns the cause if there are no
// values, or if their greatest denominator times `most` is above 2^126 - 1.
fn next_values<P: Primvar<L>, L: Ledger>(
    alloc: Global,
    level: &Level,
    child: &Child,
    values: &[Valued<P>],
    most: u128,
    scheme: Scheme,
    steps: &mut Steps<L>,
) -> Result<Vec<Valued<P>>, Cause>
    requires values { AreValues most level.now (rows_of P.numbers values.now) }
    requires child { CanRefine level.now child.now CatmullClark }
    ensures refined { AreNextValues most level.now.level (scheme_of scheme) child.now.origins (rows_of P.numbers values.now) result (λ next. rows_of P.numbers next.items) }
    ensures values { IfOk result (λ next. AreValues most child.now.topology (rows_of P.numbers next.items)) }
    ensures taken { OnOk result (steps.new ≡ steps.old + step_terms level.now.level (scheme_of scheme) child.now.origins) }
    ensures steps { steps.new ≤ steps.old + step_terms level.now.level (scheme_of scheme) child.now.origins }
    ensures later { steps.old ≤ steps.new }
{
    level.facts();
    child.facts();
    let next = match refine_values(alloc, level, child, values, scheme, steps) {
        Ok(next) => next,
        Err(fault) => return Err(value_cause(fault)),
    };
    if !fits(&next, most) {
        return Err(Cause::Overflow(OverflowKind::Value));
    }
    Ok(next)
}

/// Carries values, each over the common denominator of its point. No value has an amount above `most`. The greatest denominator of each
/// later level, times `most`, is at most 2^126 - 1. Carrying values counts one step for each mask term.
#[derive(Drop)]
pub struct ByValues<P> {
    /// The scheme of the channel.
    pub scheme: Scheme,
    /// The greater of the greatest control number and the common denominator.
    pub most: u128,
    /// The type of the values.
    pub of: PhantomData<P>,
}

impl<P: Primvar<L>, L: Ledger> Carrier<L> for ByValues<P> {
    type Carried = Vec<Valued<P>>;

    ghost use Rattle.std.specs.Prelude.{◌≡◌, ◌+◌};
    ghost use Rattle.mask_rules.specs.View.{scheme_of};
    ghost use Rattle.child_masks.specs.Masks.{step_terms};
    ghost use Rattle.primvar_refine.specs.View.{rows_of};
    ghost use Rattle.channel_refine.specs.Step.{AreValues, AreCarried, IsValueCause, AreTermSteps};

    ghost Fits = { λ by t values. AreValues by.most t (rows_of P.numbers values.items) };

    ghost Follows = { λ by t child values next old new.
        AreCarried by.most t.level (scheme_of by.scheme) child.origins (rows_of P.numbers values.items) (rows_of P.numbers next.items)
        × (new ≡ old + step_terms t.level (scheme_of by.scheme) child.origins) };

    ghost Fails = { λ by t child values cause old new.
        IsValueCause by.most t.level (scheme_of by.scheme) child.origins (rows_of P.numbers values.items) cause × AreTermSteps t.level (scheme_of by.scheme) child.origins old new };

    fn follow(
        &self,
        alloc: Global,
        parent: &Level,
        child: &Child,
        before: &Vec<Valued<P>>,
        steps: &mut Steps<L>,
    ) -> Result<Vec<Valued<P>>, Cause> {
        next_values(alloc, parent, child, before, self.most, self.scheme, steps)
    }
}
