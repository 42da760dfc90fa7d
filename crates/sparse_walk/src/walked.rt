//! The state of a walk over sparse levels.

ghost use Rattle.std.specs.Prelude.{◌≡◌, ℕ, ◌<◌, true, false, [], get_or, IfOk};
ghost use Rattle.sparse_level.specs.View.{base_of};
ghost use Rattle.sparse_walk.specs.View.{walked, walked_after};

use level_topology::Level;
use ratio128::Memory;
use sparse_level::{SparseLevel, SparseStep};
use std::alloc::Global;
use std::marker::Model;

/// A sparse level, and a mark for each face of the level before: whether it is selected. Level 0 has no such marks.
#[derive(Drop)]
pub struct WalkedSparse {
    sparse: SparseLevel,
    before: Vec<bool>,
}

impl Model for WalkedSparse {
    ghost use Rattle.sparse_walk.specs.View.{Walked, walked};

    ghost Value = { Walked };

    ghost view = { λ w. walked w.sparse w.before.items };
}

impl WalkedSparse {
    /// Returns level 0, which is the whole level. Each vertex of the level must be complete.
    ///
    /// Reports `Memory` where memory runs out, and drops the level.
    pub fn base(alloc: Global, level: Level) -> Result<WalkedSparse, Memory>
        requires { (v : ℕ) → v < level.level.point_count → get_or level.complete v false ≡ true }
        ensures { IfOk result (λ start. start ≡ walked (base_of level) []) }
    {
        Ok(WalkedSparse::first(alloc, SparseLevel::base(alloc, level)?))
    }

    // Returns the state at level 0, which has no level before it.
    fn first(alloc: Global, sparse: SparseLevel) -> WalkedSparse
        ensures { result ≡ walked sparse [] }
    {
        WalkedSparse {
            sparse,
            before: Vec::new(alloc),
        }
    }

    /// Returns the level that a step made.
    pub fn after(step: SparseStep) -> WalkedSparse
        ensures { result ≡ walked_after step }
    {
        let (sparse, before) = step.into_parts();
        WalkedSparse { sparse, before }
    }

    /// Returns the sparse level.
    pub fn sparse(&self) -> &SparseLevel
        ensures { result.now ≡ self.now.sparse }
    {
        &self.sparse
    }

    /// Returns the marks of the faces of the level before.
    pub fn before(&self) -> &[bool]
        ensures { result.now ≡ self.now.before }
    {
        &self.before
    }

    /// Returns the sparse level, and the marks of the faces of the level before.
    pub fn into_parts(self) -> (SparseLevel, Vec<bool>)
        ensures sparse { result.0 ≡ self.sparse }
        ensures before { result.1.items ≡ self.before }
    {
        (self.sparse, self.before)
    }
}
