//! The levels of a walk that a visitor keeps.

ghost use Rattle.std.specs.Prelude.{◌≡◌, [], ◌∷◌, ◌++◌, Some, None, IfOk};
ghost use Rattle.sparse_laws.specs.Written.{written_here};
ghost use Rattle.sparse_level.specs.View.{level_of};
ghost use Rattle.sparse_level.specs.Places.{marked};
ghost use Rattle.sparse_walk.specs.Kept.{kept_so_far, kept_of, last_kept, kept_to};

use crate::walked::WalkedSparse;
use level_walk::Visitor;
use ratio128::Memory;
use sparse_level::{SparseFaces, SparseLevel};
use std::alloc::Global;
use std::marker::Model;

/// A kept level: its faces in the form in which they are written, and its data.
#[derive(Drop)]
pub struct KeptLevel<C> {
    /// The faces.
    pub faces: SparseFaces,
    /// The data at the level.
    pub carried: C,
}

/// A visitor that keeps each level in the form in which it is written, with its data.
///
/// Only the next level shows which faces of a level are selected. Until then the visitor keeps the last level whole.
#[derive(Drop)]
pub struct Keeping<C> {
    alloc: Global,
    levels: Vec<KeptLevel<C>>,
    last: Option<(SparseLevel, C)>,
}

impl<C> Model for Keeping<C> {
    ghost use Rattle.sparse_walk.specs.Kept.{KeptSoFar, kept_so_far};

    ghost Value = { KeptSoFar C };

    ghost view = { λ k. kept_so_far k.levels.items k.last };
}

// Returns the faces of a level, with these selected, in the form in which they are written.
fn faces_with(alloc: Global, level: SparseLevel, selected: &[bool]) -> Result<SparseFaces, Memory>
    ensures { IfOk result (λ faces. faces ≡ written_here (level_of level) (marked selected.now)) }
{
    SparseFaces::of(alloc, &level, selected)
}

// Adds a level with these selected faces.
fn put_level<C: Drop>(
    alloc: Global,
    levels: &mut Vec<KeptLevel<C>>,
    left: (SparseLevel, C),
    selected: &[bool],
) -> Result<(), Memory>
    ensures { IfOk result (λ _. levels.new.items ≡ levels.old.items ++ kept_of left selected.now ∷ []) }
{
    let (level, carried) = left;
    let faces = faces_with(alloc, level, selected)?;
    levels.push(KeptLevel { faces, carried })?;
    Ok(())
}

// Adds the level that was left last, if there is one.
fn put_last<C: Drop>(
    alloc: Global,
    levels: &mut Vec<KeptLevel<C>>,
    last: Option<(SparseLevel, C)>,
    selected: &[bool],
) -> Result<(), Memory>
    ensures { IfOk result (λ _. levels.new.items ≡ levels.old.items ++ last_kept last selected.now) }
{
    match last {
        Some(left) => put_level(alloc, levels, left, selected),
        None => Ok(()),
    }
}

impl<C: Drop> Keeping<C> {
    /// Returns a visitor that has kept nothing. The call takes no memory.
    pub fn empty(alloc: Global) -> Keeping<C>
        ensures { result ≡ kept_so_far [] None }
    {
        Keeping {
            alloc,
            levels: Vec::new(alloc),
            last: None,
        }
    }

    /// Returns all levels; the last one is `end`, and none of its faces is selected.
    ///
    /// Reports `Memory` where memory runs out, and drops all kept levels.
    pub fn into_levels(self, end: WalkedSparse, carried: C) -> Result<Vec<KeptLevel<C>>, Memory>
        ensures { IfOk result (λ levels. levels.items ≡ kept_to self end carried) }
    {
        let mut levels = self.levels;
        put_last(self.alloc, &mut levels, self.last, end.before())?;
        let (sparse, _) = end.into_parts();
        put_level(self.alloc, &mut levels, (sparse, carried), &[])?;
        Ok(levels)
    }
}

impl<C: Drop> Visitor<WalkedSparse, C> for Keeping<C> {
    ghost use Rattle.sparse_walk.specs.Kept.{Keeps};

    ghost Takes = { λ before walked carried after. Keeps before walked carried after };

    fn leave(&mut self, level: WalkedSparse, carried: C) -> Result<(), Memory> {
        let (sparse, before) = level.into_parts();
        let last = self.last.replace((sparse, carried));
        put_last(self.alloc, &mut self.levels, last, &before)
    }
}
