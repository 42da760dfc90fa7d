//! The data that a walk carries along.

ghost use Rattle.std.specs.Prelude.{◌≡◌, ℕ, IfOk, MatchResult};
ghost use Rattle.subdiv_model.specs.Mask.{CatmullClark};
ghost use Rattle.child_masks.specs.Masks.{CanRefine};

use crate::fault::Cause;
use level_topology::{Child, Level};
use ratio128::Steps;
use std::alloc::Global;
use std::sync::ledger::Ledger;

/// Carries data from a level to the next. Settings that stay the same during the walk, such as a scheme, belong to the
/// carrier itself.
pub trait Carrier<L: Ledger> {
    /// The data at a level.
    type Carried: Drop;

    ghost use Rattle.level_topology.specs.Topology.{Topology};
    ghost use Rattle.level_topology.specs.Child.{ChildTopology};
    ghost use Rattle.level_walk.specs.declared.fault.Cause.{Cause};

    /// The data can be carried from this level on.
    ghost Fits: { Self → Topology → Self.Carried → Type 0 };

    /// Relates a level, its child, the data at both, and the number of steps before and after.
    ghost Follows: { Self → Topology → ChildTopology → Self.Carried → Self.Carried → ℕ → ℕ → Type 0 };

    /// Relates a level, its child, the data at the level, the cause that stops the data, and the number of steps before and
    /// after.
    ghost Fails: { Self → Topology → ChildTopology → Self.Carried → Cause → ℕ → ℕ → Type 0 };

    /// Returns the data at a child of a level, from the data at the level.
    fn follow(
        &self,
        alloc: Global,
        parent: &Level,
        child: &Child,
        before: &Self::Carried,
        steps: &mut Steps<L>,
    ) -> Result<Self::Carried, Cause>
        requires fits { Fits self.now parent.now before.now }
        requires child { CanRefine parent.now child.now CatmullClark }
        ensures followed { MatchResult result
            (λ to. Follows self.now parent.now child.now before.now to steps.old steps.new)
            (λ why. Fails self.now parent.now child.now before.now why steps.old steps.new) }
        ensures fits { IfOk result (λ next. Fits self.now child.now.topology next) };
}

/// A carrier without data. It takes no steps and cannot fail.
#[derive(Clone, Copy)]
pub struct Nothing;

impl<L: Ledger> Carrier<L> for Nothing {
    type Carried = ();

    ghost Fits = { λ _ _ _. Unit {0} };

    ghost Follows = { λ _ _ _ _ _ old new. new ≡ old };

    ghost Fails = { λ _ _ _ _ _ _ _. ⊥ };

    fn follow(
        &self,
        alloc: Global,
        parent: &Level,
        child: &Child,
        before: &(),
        steps: &mut Steps<L>,
    ) -> Result<(), Cause> {
        Ok(())
    }
}
