//! The origins of the level at a depth, carried along from level 0.

ghost use Rattle.std.specs.Prelude.{◌≡◌, ◌^◌, ◌≤◌, true, replicate, IfOk, MatchResult, OnOk, IsTrue};
ghost use Rattle.mask_laws.specs.SharpBoundary.{has_sharp_boundary};
ghost use Rattle.level_walk.specs.UniformFaults.{IsFaultOfLevels};
ghost use Rattle.level_walk.specs.UniformLevels.{AreMade, AreLevelSteps};
ghost use Rattle.level_walk.specs.Origins.{origins_to};
ghost use Rattle.level_walk.specs.ChildOrigins.{AreFew, AreOrigins};
ghost use Rattle.level_walk.specs.OriginsView.{seen_origins};

use crate::along::walk;
use crate::base_origins::own_origins;
use crate::carried_origins::next_origins;
use crate::carrier::Carrier;
use crate::fault::{Cause, WalkFault};
use crate::origin::Origins;
use crate::reached::Reached;
use crate::uniform_step::Uniform;
use crate::visitor::Dropped;
use level_topology::{Child, Level};
use ratio128::Steps;
use std::alloc::Global;
use std::sync::ledger::Ledger;

// Carries the origins of a level along a walk.
#[derive(Clone, Copy)]
struct ByOrigins;

impl<L: Ledger> Carrier<L> for ByOrigins {
    type Carried = Origins;

    ghost use Rattle.std.specs.Prelude.{◌≡◌};
    ghost use Rattle.level_walk.specs.declared.fault.Cause.TheVariants as cause;
    ghost use Rattle.level_walk.specs.ChildOrigins.{AreOrigins, child_origins};
    ghost use Rattle.level_walk.specs.OriginsView.{seen_origins};

    ghost Fits = { λ _ t origins. AreOrigins t.level (seen_origins origins) };

    ghost Follows = { λ _ t child before next old new. (seen_origins next ≡ child_origins child (seen_origins before)) × (new ≡ old) };

    ghost Fails = { λ _ t child before why old new. (why ≡ cause.Memory) × (new ≡ old) };

    fn follow(
        &self,
        alloc: Global,
        parent: &Level,
        child: &Child,
        before: &Origins,
        steps: &mut Steps<L>,
    ) -> Result<Origins, Cause> {
        child.facts();
        Ok(next_origins(alloc, child, before)?)
    }
}

// Returns the origins at the end of a walk.
fn origins_at_end(end: Reached<Level, Origins>) -> Origins
    requires { AreOrigins end.level.level (seen_origins end.carried) }
    ensures origins { result ≡ end.carried }
    ensures few { AreFew (seen_origins result) }
{
    end.level.facts();
    // The prover proves a drop by name once for its type.
    drop(end.level);
    end.carried
}

/// Returns the origins of the level at `depth`, at most 10. Level 0 has at most 2^27 points. Each of them is complete, and
/// each edge with one face is infinitely sharp. The call drops each level once the next one is made. Each face of the levels
/// after level 0 is at most one step.
///
/// Reports the fault of the first level that is not reached, counted from 1. `TooManyFaces` means that it would have more
/// than 2^22 faces. `Overflow` has the kind `Chaikin`: halves of edges overflow. `Memory` comes where memory runs out, with
/// the number 0 if that is before the first step.
pub fn find_origins<L: Ledger>(
    alloc: Global,
    base: Level,
    depth: u32,
    steps: &mut Steps<L>,
) -> Result<Origins, WalkFault>
    requires depth { depth ≤ 10 }
    requires points { base.level.point_count ≤ 2 ^ 27 }
    requires whole { base.complete ≡ replicate base.level.point_count true }
    requires boundary { IsTrue (has_sharp_boundary base.level) }
    ensures found { MatchResult result (λ origins. seen_origins origins ≡ origins_to base.level depth)
        (IsFaultOfLevels base.level depth) }
    ensures few { IfOk result (λ origins. AreFew (seen_origins origins)) }
    ensures made { OnOk result (AreMade base.level depth) }
    ensures steps { AreLevelSteps base.level depth steps.old steps.new }
{
    base.facts();
    let carried = own_origins(alloc, &base)?;
    let start = Reached {
        level: base,
        carried,
    };
    let end = walk(
        alloc,
        &Uniform,
        &ByOrigins,
        &mut Dropped,
        start,
        depth,
        steps,
    )?;
    Ok(origins_at_end(end))
}
