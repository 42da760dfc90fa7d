//! The counts of the levels to a depth. Two levels are in memory at a time.

ghost use Rattle.std.specs.Prelude.{◌≡◌, ◌^◌, ◌≤◌, true, map, replicate, [], ◌∷◌, ◌++◌, IfOk, MatchResult, OnOk, IsTrue};
ghost use Rattle.mask_laws.specs.SharpBoundary.{has_sharp_boundary};
ghost use Rattle.level_walk.specs.UniformFaults.{IsFaultOfLevels};
ghost use Rattle.level_walk.specs.UniformLevels.{AreMade, AreLevelSteps};
ghost use Rattle.level_walk.specs.Counts.{counts_of, counts_to};
ghost use Rattle.level_walk.specs.CountsView.{seen_counts};

use crate::along::walk;
use crate::carrier::Nothing;
use crate::counts::LevelCounts;
use crate::fault::WalkFault;
use crate::reached::Reached;
use crate::uniform_step::Uniform;
use crate::visitor::Visitor;
use level_topology::Level;
use ratio128::{Memory, Steps};
use std::alloc::Global;
use std::sync::ledger::Ledger;

// The counts of the levels that the walk left behind.
#[derive(Drop)]
struct Counting {
    counts: Vec<LevelCounts>,
}

impl Counting {
    // Returns memory for the counts of level 0 and of `depth` levels after it.
    fn with_capacity(alloc: Global, depth: u32) -> Result<Counting, Memory>
        requires { depth ≤ 10 }
        ensures { IfOk result (λ counting. map seen_counts counting.counts.items ≡ []) }
    {
        let counts = Vec::with_capacity(alloc, depth as usize + 1)?;
        Ok(Counting { counts })
    }

    // Adds the counts of a level.
    fn count(&mut self, level: &Level) -> Result<(), Memory>
        ensures { IfOk result (λ _. map seen_counts self.new.counts.items ≡ map seen_counts self.old.counts.items ++ counts_of level.now.level ∷ []) }
    {
        self.counts.push(LevelCounts::of(level))?;
        Ok(())
    }
}

impl Visitor<Level, ()> for Counting {
    ghost use Rattle.std.specs.Prelude.{◌≡◌, map, [], ◌∷◌, ◌++◌};
    ghost use Rattle.level_walk.specs.Counts.{counts_of};
    ghost use Rattle.level_walk.specs.CountsView.{seen_counts};

    ghost Takes = { λ before level _ after. map seen_counts after.counts.items ≡ map seen_counts before.counts.items ++ counts_of level.level ∷ [] };

    fn leave(&mut self, level: Level, carried: ()) -> Result<(), Memory> {
        self.count(&level)
    }
}

// Returns the counts of all levels, with those of the last one.
fn with_last(counting: Counting, last: Level) -> Result<Vec<LevelCounts>, Memory>
    ensures { IfOk result (λ counts. map seen_counts counts.items ≡ map seen_counts counting.counts.items ++ counts_of last.level ∷ []) }
{
    let mut all = counting;
    all.count(&last)?;
    Ok(all.counts)
}

/// Returns the counts of each level from 0 to `depth`, at most 10. Level 0 has at most 2^27 points. Each of them is complete,
/// and each edge with one face is infinitely sharp. The call drops each level once the next one is made. Each face of the
/// levels after level 0 is at most one step.
///
/// Reports the fault of the first level that is not reached, counted from 1. `TooManyFaces` means that it would have more
/// than 2^22 faces. `Overflow` has the kind `Chaikin`: halves of edges overflow. `Memory` comes where memory runs out, with
/// the number 0 if that is outside of the walk.
pub fn count_levels<L: Ledger>(
    alloc: Global,
    base: Level,
    depth: u32,
    steps: &mut Steps<L>,
) -> Result<Vec<LevelCounts>, WalkFault>
    requires depth { depth ≤ 10 }
    requires points { base.level.point_count ≤ 2 ^ 27 }
    requires whole { base.complete ≡ replicate base.level.point_count true }
    requires boundary { IsTrue (has_sharp_boundary base.level) }
    ensures counted { MatchResult result (λ counts. map seen_counts counts.items ≡ counts_to base.level depth)
        (IsFaultOfLevels base.level depth) }
    ensures made { OnOk result (AreMade base.level depth) }
    ensures steps { AreLevelSteps base.level depth steps.old steps.new }
{
    let mut counting = Counting::with_capacity(alloc, depth)?;
    let start = Reached {
        level: base,
        carried: (),
    };
    let end = walk(
        alloc,
        &Uniform,
        &Nothing,
        &mut counting,
        start,
        depth,
        steps,
    )?;
    let counts = with_last(counting, end.level)?;
    Ok(counts)
}
