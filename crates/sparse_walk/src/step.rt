//! The next sparse level as a step of a walk.

use crate::walked::WalkedSparse;
use feature_select::{FaceTest, SelectRule};
use level_topology::{Child, FaceFacts, Level};
use level_walk::{Cause, NextLevel, with_cause};
use ratio128::Steps;
use sparse_level::SparseStep;
use sparse_refiner::refine_selected;
use std::alloc::Global;
use std::sync::ledger::Ledger;

/// The step to the present part of the next level: the child faces at the vertices of the faces that a rule selects. Each
/// present face is at most one step of the counter.
///
/// Reports `TooManyFaces` with the number of present faces where that is above 2^22. Reports `Overflow` of the kind `Chaikin`
/// where halves of edges overflow, and `Memory` where memory runs out.
#[derive(Drop)]
pub struct Sparse<'a, T: FaceTest, F: Fn(&FaceFacts) -> bool> {
    /// The rule that selects faces.
    pub rule: &'a SelectRule<T, F>,
}

impl<T: FaceTest, F: Fn(&FaceFacts) -> bool, L: Ledger> NextLevel<L> for Sparse<'_, T, F> {
    type Level = WalkedSparse;

    type Next = SparseStep;

    ghost use Rattle.sparse_walk.specs.View.{walked_after};
    ghost use Rattle.sparse_walk.specs.Step.{IsReadyFor, IsMade, IsRefused};

    ghost level_of = { λ walked. walked.sparse.topology };

    ghost child_of = { λ step. step.child };

    ghost next_of = { λ step. walked_after step };

    ghost IsReady = { λ s walked left. IsReadyFor F.Fn s.rule.now.0 (T.meets s.rule.now.1) walked.sparse left };

    ghost Makes = { λ s walked child next old new. IsMade (T.meets s.rule.now.1) walked child next old new };

    ghost Refuses = { λ s walked cause old new. IsRefused (T.meets s.rule.now.1) walked cause old new };

    fn next_level(
        &self,
        alloc: Global,
        level: &WalkedSparse,
        steps: &mut Steps<L>,
    ) -> Result<SparseStep, Cause> {
        let parent = level.sparse();
        parent.level().facts();
        with_cause(refine_selected(alloc, parent, self.rule, steps))
    }

    fn level(walked: &WalkedSparse) -> &Level {
        walked.sparse().level()
    }

    fn child(next: &SparseStep) -> &Child {
        next.child()
    }

    fn into_level(next: SparseStep) -> WalkedSparse {
        WalkedSparse::after(next)
    }
}
