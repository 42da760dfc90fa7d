//! The map of all sparse levels up to a depth.

ghost use Rattle.std.specs.Prelude.{◌≡◌, ◌≤◌, MatchResult, OnOk};
ghost use Rattle.subdiv_model.specs.Channel.{Sharpnesses};
ghost use Rattle.subdiv_model.specs.Sparse.{predicate_to};
ghost use Rattle.feature_select.specs.Rule.{AnswersTest};
ghost use Rattle.patch_map.specs.Is.{IsMapOf};
ghost use Rattle.sparse_walk.specs.Base.{IsSparseBase};
ghost use Rattle.sparse_walk.specs.Levels.{AreSparseSteps};
ghost use Rattle.sparse_walk.specs.Faults.{IsSparseFault, HasNoSparseFault};

use crate::growing_map::Growing;
use crate::step::Sparse;
use crate::walked::WalkedSparse;
use feature_select::{FaceTest, SelectRule};
use level_topology::{FaceFacts, Level};
use level_walk::{Nothing, Reached, WalkFault, walk};
use patch_map::PatchMap;
use ratio128::Steps;
use std::alloc::Global;
use std::sync::ledger::Ledger;

/// Returns the map of the sparse levels of `base` from 0 to `depth`, at most 10. Level 0 is whole; each later level contains the children
/// around the faces that the rule selects. In level 0 each point is complete, and each edge with one face is infinitely sharp. The call
/// counts at most one step for each face of the levels after the first.
///
/// The error is the fault of the first level, counted from 1, that the call cannot make:
///
/// - `TooManyFaces`: the level would have more than 2^22 faces; it names their number;
/// - `Overflow` of the kind `Chaikin`: a half of an edge passes its bound;
/// - `Memory`, at any level.
pub fn map_sparse<T: FaceTest, F: Fn(&FaceFacts) -> bool, L: Ledger>(
    alloc: Global,
    base: Level,
    rule: &SelectRule<T, F>,
    depth: u32,
    steps: &mut Steps<L>,
) -> Result<PatchMap, WalkFault>
    requires base { IsSparseBase base }
    requires depth { depth ≤ 10 }
    requires answers { AnswersTest F.Fn rule.now.0 (T.meets rule.now.1) }
    ensures map { MatchResult result
        (λ map. IsMapOf base.level (predicate_to (T.meets rule.now.1) base.level depth) depth map)
        (IsSparseFault Sharpnesses base.level (T.meets rule.now.1) depth) }
    ensures fine { OnOk result (HasNoSparseFault base.level (T.meets rule.now.1) depth) }
    ensures steps { AreSparseSteps base.level (T.meets rule.now.1) depth steps.old steps.new }
{
    base.facts();
    let level = WalkedSparse::base(alloc, base)?;
    let mut growing = Growing::start(alloc, level.sparse())?;
    let start = Reached { level, carried: () };
    let end = walk(
        alloc,
        &Sparse { rule },
        &Nothing,
        &mut growing,
        start,
        depth,
        steps,
    )?;
    Ok(growing.into_map(end.level)?)
}
