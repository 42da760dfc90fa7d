//! The whole next level as a step of a walk.

ghost use Rattle.std.specs.Prelude.{◌≡◌, Ok, Err, MatchResult};
ghost use Rattle.level_walk.specs.UniformStep.{cause_of};

use crate::fault::{Cause, OverflowKind};
use crate::step::NextLevel;
use level_topology::{Child, Level};
use ratio128::Steps;
use std::alloc::Global;
use std::sync::ledger::Ledger;
use uniform_refiner::{RefineFault, refine};

// Returns the cause of a walk for a fault of a refinement.
fn cause_of_fault(fault: RefineFault) -> Cause
    ensures { result ≡ cause_of fault }
{
    match fault {
        RefineFault::TooLarge(count) => Cause::TooManyFaces { count },
        RefineFault::Chaikin(_) => Cause::Overflow(OverflowKind::Chaikin),
        RefineFault::Memory => Cause::Memory,
    }
}

/// Returns the result of a refinement, with its fault as the cause of a walk.
pub fn with_cause<T>(made: Result<T, RefineFault>) -> Result<T, Cause>
    ensures { MatchResult made (λ next. result ≡ Ok next) (λ fault. result ≡ Err (cause_of fault)) }
{
    match made {
        Ok(next) => Ok(next),
        Err(fault) => Err(cause_of_fault(fault)),
    }
}

/// The step to the whole next level. Each of its faces is at most one step of the counter.
///
/// Reports `TooManyFaces` with the number of faces where the next level would have more than 2^22. Reports `Overflow` of the
/// kind `Chaikin` where halves of edges overflow, and `Memory` where memory runs out.
#[derive(Clone, Copy)]
pub struct Uniform;

impl<L: Ledger> NextLevel<L> for Uniform {
    type Level = Level;

    type Next = Child;

    ghost use Rattle.level_walk.specs.UniformStep.{IsWhole, IsMade, IsRefused};

    ghost level_of = { λ level. level };

    ghost child_of = { λ child. child };

    ghost next_of = { λ child. child.topology };

    ghost IsReady = { λ _ level _. IsWhole level };

    ghost Makes = { λ _ level child next old new. IsMade level child next old new };

    ghost Refuses = { λ _ level cause old new. IsRefused level cause old new };

    fn next_level(
        &self,
        alloc: Global,
        level: &Level,
        steps: &mut Steps<L>,
    ) -> Result<Child, Cause> {
        level.facts();
        with_cause(refine(alloc, level, steps))
    }

    fn level(walked: &Level) -> &Level {
        walked
    }

    fn child(next: &Child) -> &Child {
        next
    }

    fn into_level(next: Child) -> Level {
        next.into_level()
    }
}
