//! The next sparse level, with the tables that connect it to the level before.

ghost use Rattle.std.specs.Prelude.{◌≡◌, ◌<◌, false, length, get_or};
ghost use Rattle.sparse_level.specs.View.{next_of, sparse_child, IsSparseTopology};

use crate::sparse::SparseLevel;
use level_topology::Child;
use std::marker::Model;

/// The next sparse level as a child of the level before, and the marks of the selected faces of that level.
#[derive(Drop)]
pub struct SparseStep {
    child: Child,
    selected: Vec<bool>,
    numbers: Vec<u64>,
    inner: Vec<bool>,
    depth: u32,
}

impl Model for SparseStep {
    ghost use Rattle.sparse_level.specs.View.{SparseChild, sparse_child, next_of, IsSparseTopology};

    ghost Value = { SparseChild };

    ghost view = { λ s. sparse_child s.child s.selected.items s.numbers.items s.inner.items s.depth };

    ghost invariant = { λ s. IsSparseTopology (next_of (sparse_child s.child s.selected.items s.numbers.items s.inner.items s.depth)) };
}

impl SparseStep {
    /// Returns a step from its parts: a mark for each face of the level before, and a number and a mark for each new face.
    /// The parts must be those of one sparse level. The call takes no memory.
    pub fn of(
        child: Child,
        selected: Vec<bool>,
        numbers: Vec<u64>,
        inner: Vec<bool>,
        depth: u32,
    ) -> SparseStep
        requires { IsSparseTopology (next_of (sparse_child child selected.items numbers.items inner.items depth)) }
        ensures { result ≡ sparse_child child selected.items numbers.items inner.items depth }
    {
        SparseStep {
            child,
            selected,
            numbers,
            inner,
            depth,
        }
    }

    /// Returns the new level as a child of the level before.
    pub fn child(&self) -> &Child
        ensures { result.now ≡ self.now.child }
    {
        &self.child
    }

    /// Returns whether face `f` of the level before is selected.
    pub fn is_selected(&self, f: u32) -> bool
        requires { f < length self.now.selected }
        ensures { result ≡ get_or self.now.selected f false }
    {
        self.selected[f as usize]
    }

    /// Returns the marks of the faces of the level before.
    pub fn selected(&self) -> &[bool]
        ensures { result.now ≡ self.now.selected }
    {
        &self.selected
    }

    /// Returns the number of each new face in the uniform level.
    pub fn numbers(&self) -> &[u64]
        ensures { result.now ≡ self.now.numbers }
    {
        &self.numbers
    }

    /// Returns the number of steps from level 0 to the new level.
    pub fn depth(&self) -> u32
        ensures { result ≡ self.now.depth }
    {
        self.depth
    }

    /// States what holds for each new level.
    pub fn facts(&self)
        ensures { IsSparseTopology (next_of self.now) }
    {
        let _ = &self.child;
    }

    /// Returns the new level, and the marks of the faces of the level before.
    pub fn into_parts(self) -> (SparseLevel, Vec<bool>)
        ensures level { result.0 ≡ next_of self }
        ensures selected { result.1.items ≡ self.selected }
    {
        let level = SparseLevel::with_parts(
            self.child.into_level(),
            self.numbers,
            self.inner,
            self.depth,
        );
        (level, self.selected)
    }

    // Returns the new level.
    pub(crate) fn into_sparse(self) -> SparseLevel
        ensures { result ≡ next_of self }
    {
        SparseLevel::with_parts(
            self.child.into_level(),
            self.numbers,
            self.inner,
            self.depth,
        )
    }
}
