//! All sparse levels to a depth.

ghost use Rattle.std.specs.Prelude.{◌≡◌, ◌≤◌, map, IfOk, MatchResult, OnOk};
ghost use Rattle.subdiv_model.specs.Channel.{Sharpnesses};
ghost use Rattle.feature_select.specs.Rule.{AnswersTest};
ghost use Rattle.sparse_walk.specs.Base.{IsSparseBase};
ghost use Rattle.sparse_walk.specs.Levels.{faces_of, written_to, AreSparseSteps};
ghost use Rattle.sparse_walk.specs.Faults.{IsSparseFault, HasNoSparseFault};

use crate::kept::{Keeping, KeptLevel};
use crate::step::Sparse;
use crate::walked::WalkedSparse;
use feature_select::{FaceTest, SelectRule};
use level_topology::{FaceFacts, Level};
use level_walk::{Nothing, Reached, WalkFault, walk};
use ratio128::{Memory, Steps};
use sparse_level::SparseFaces;
use std::alloc::Global;
use std::sync::ledger::Ledger;

// Returns the faces of each level, without the data.
fn faces_by_level(alloc: Global, levels: Vec<KeptLevel<()>>) -> Result<Vec<SparseFaces>, Memory>
    ensures { IfOk result (λ faces. faces.items ≡ map faces_of levels.items) }
{
    let mut faces = Vec::with_capacity(alloc, levels.len())?;
    for level in levels {
        faces.push(level.faces)?;
    }
    Ok(faces)
}

/// Returns the sparse levels from 0 to `depth`, at most 10. Level 0 is whole; each further level has the child faces around
/// the faces that the rule selects. In level 0 each point is complete, and each edge with one face is infinitely sharp. Each
/// face of the levels after level 0 is at most one step.
///
/// Reports the fault of the first level that is not reached, counted from 1. `TooManyFaces` has the number of its present
/// faces, which is above 2^22. `Overflow` has the kind `Chaikin`: halves of edges overflow. `Memory` comes where memory runs
/// out, with the number 0 if that is outside of the walk.
pub fn sparse_levels<T: FaceTest, F: Fn(&FaceFacts) -> bool, L: Ledger>(
    alloc: Global,
    base: Level,
    rule: &SelectRule<T, F>,
    depth: u32,
    steps: &mut Steps<L>,
) -> Result<Vec<SparseFaces>, WalkFault>
    requires base { IsSparseBase base }
    requires depth { depth ≤ 10 }
    requires answers { AnswersTest F.Fn rule.now.0 (T.meets rule.now.1) }
    ensures written { MatchResult result
        (λ levels. levels.items ≡ written_to base.level (T.meets rule.now.1) depth)
        (λ fault. IsSparseFault Sharpnesses base.level (T.meets rule.now.1) depth fault) }
    ensures fine { OnOk result (HasNoSparseFault base.level (T.meets rule.now.1) depth) }
    ensures steps { AreSparseSteps base.level (T.meets rule.now.1) depth steps.old steps.new }
{
    base.facts();
    let level = WalkedSparse::base(alloc, base)?;
    let mut keeping = Keeping::empty(alloc);
    let start = Reached { level, carried: () };
    let end = walk(
        alloc,
        &Sparse { rule },
        &Nothing,
        &mut keeping,
        start,
        depth,
        steps,
    )?;
    let levels = keeping.into_levels(end.level, end.carried)?;
    Ok(faces_by_level(alloc, levels)?)
}
