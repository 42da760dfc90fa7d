//! The step that makes the next level.

ghost use Rattle.std.specs.Prelude.{◌≡◌, ℕ, suc, IfOk, MatchResult};
ghost use Rattle.subdiv_model.specs.Mask.{CatmullClark};
ghost use Rattle.child_masks.specs.Masks.{CanRefine};

use crate::fault::Cause;
use level_topology::{Child, Level};
use ratio128::Steps;
use std::alloc::Global;
use std::sync::ledger::Ledger;

/// Makes the next level, whole or in part. The counter of steps counts its work.
pub trait NextLevel<L: Ledger> {
    /// The state of a walk at a level: the level, and whatever else the next one is made of.
    type Level: Drop;

    /// The next level, with the tables that connect it to the level before.
    type Next: Drop;

    ghost use Rattle.level_topology.specs.Topology.{Topology};
    ghost use Rattle.level_topology.specs.Child.{ChildTopology};
    ghost use Rattle.level_walk.specs.declared.fault.Cause.{Cause};

    /// The level of a state.
    ghost level_of: { Self.Level → Topology };

    /// The next level as a child of the level before.
    ghost child_of: { Self.Next → ChildTopology };

    /// The next level as a state of the walk.
    ghost next_of: { Self.Next → Self.Level };

    /// This many levels can be made after the level.
    ghost IsReady: { Self → Self.Level → ℕ → Type 0 };

    /// Relates a level, its child, the next level, and the number of steps before and after.
    ghost Makes: { Self → Self.Level → ChildTopology → Self.Level → ℕ → ℕ → Type 0 };

    /// Relates a level, the cause that there is no next one, and the number of steps before and after.
    ghost Refuses: { Self → Self.Level → Cause → ℕ → ℕ → Type 0 };

    /// Returns the next level. Each of its points has a mask.
    fn next_level(
        &self,
        alloc: Global,
        level: &Self::Level,
        steps: &mut Steps<L>,
    ) -> Result<Self::Next, Cause>
        requires { (left : ℕ) × IsReady self.now level.now (suc left) }
        ensures made { MatchResult result
            (λ next. Makes self.now level.now (child_of next) (next_of next) steps.old steps.new)
            (λ cause. Refuses self.now level.now cause steps.old steps.new) }
        ensures child { IfOk result (λ next. CanRefine (level_of level.now) (child_of next) CatmullClark) }
        ensures level { IfOk result (λ next. level_of (next_of next) ≡ (child_of next).topology) }
        ensures ready { (left : ℕ) → IsReady self.now level.now (suc left) → IfOk result (λ next. IsReady self.now (next_of next) left) };

    /// Returns the level of a state.
    fn level(walked: &Self::Level) -> &Level
        ensures { result.now ≡ level_of walked.now };

    /// Returns the next level as a child of the level before.
    fn child(next: &Self::Next) -> &Child
        ensures { result.now ≡ child_of next.now };

    /// Returns the next level as a state of the walk.
    fn into_level(next: Self::Next) -> Self::Level
        ensures { result ≡ next_of next };
}
