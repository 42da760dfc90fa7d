//! A sparse level.

ghost use Rattle.std.specs.Prelude.{◌≡◌, ℕ, ◌<◌, true, false, length, get_or, replicate, IfOk};
ghost use Rattle.std.specs.List.{range_with_len};
ghost use Rattle.sparse_level.specs.View.{base_of, next_of, sparse_topology, IsSparseTopology};

use crate::step::SparseStep;
use level_topology::Level;
use ratio128::Memory;
use std::alloc::Global;
use std::marker::Model;

// Returns the numbers from 0 to `count` - 1.
fn numbers_below(alloc: Global, count: u32) -> Result<Vec<u64>, Memory>
    ensures { IfOk result (λ numbers. numbers.items ≡ range_with_len 0 count) }
{
    let mut numbers = Vec::with_capacity(alloc, count as usize)?;
    for n in 0..count {
        numbers.push(u64::from(n))?;
    }
    Ok(numbers)
}

// Returns for each face of a level its number and the mark `true`.
fn base_lists(alloc: Global, level: &Level) -> Result<(Vec<u64>, Vec<bool>), Memory>
    ensures numbers { IfOk result (λ lists. lists.0.items ≡ range_with_len 0 (length level.now.level.polygons)) }
    ensures inner { IfOk result (λ lists. lists.1.items ≡ replicate (length level.now.level.polygons) true) }
{
    let numbers = numbers_below(alloc, level.faces())?;
    let inner = vec![in alloc; true; level.faces() as usize]?;
    Ok((numbers, inner))
}

/// A sparse level: the faces near the selected faces of the level before.
///
/// Each face has its number in the uniform level, counted from 0. A face is inner if its parent is selected; at level 0 each
/// face is inner.
#[derive(Drop)]
pub struct SparseLevel {
    level: Level,
    numbers: Vec<u64>,
    inner: Vec<bool>,
    depth: u32,
}

impl Model for SparseLevel {
    ghost use Rattle.sparse_level.specs.View.{SparseTopology, sparse_topology, IsSparseTopology};

    ghost Value = { SparseTopology };

    ghost view = { λ s. sparse_topology s.level s.numbers.items s.inner.items s.depth };

    ghost invariant = { λ s. IsSparseTopology (sparse_topology s.level s.numbers.items s.inner.items s.depth) };
}

impl SparseLevel {
    /// Returns the whole level as sparse level 0: each face is present and inner. Each vertex of the level must be complete.
    ///
    /// Reports `Memory` where memory runs out, and drops the level.
    pub fn base(alloc: Global, level: Level) -> Result<SparseLevel, Memory>
        requires { (v : ℕ) → v < level.level.point_count → get_or level.complete v false ≡ true }
        ensures { IfOk result (λ sparse. sparse ≡ base_of level) }
    {
        level.facts();
        let (numbers, inner) = base_lists(alloc, &level)?;
        Ok(SparseLevel::with_parts(level, numbers, inner, 0))
    }

    /// Returns the level that a step made.
    pub fn after(step: SparseStep) -> SparseLevel
        ensures { result ≡ next_of step }
    {
        step.into_sparse()
    }

    // Returns a sparse level from its parts.
    pub(crate) fn with_parts(
        level: Level,
        numbers: Vec<u64>,
        inner: Vec<bool>,
        depth: u32,
    ) -> SparseLevel
        requires { IsSparseTopology (sparse_topology level numbers.items inner.items depth) }
        ensures { result ≡ sparse_topology level numbers.items inner.items depth }
    {
        SparseLevel {
            level,
            numbers,
            inner,
            depth,
        }
    }

    /// Returns the level of the present faces.
    pub fn level(&self) -> &Level
        ensures { result.now ≡ self.now.topology }
    {
        &self.level
    }

    /// Returns the number of face `f` in the uniform level.
    pub fn number(&self, f: u32) -> u64
        requires { f < length self.now.topology.level.polygons }
        ensures { result ≡ get_or self.now.numbers f 0 }
    {
        self.numbers[f as usize]
    }

    /// Returns the number of each face in the uniform level.
    pub fn numbers(&self) -> &[u64]
        ensures { result.now ≡ self.now.numbers }
    {
        &self.numbers
    }

    /// Returns whether the parent of face `f` is selected. At level 0 it returns true for each face.
    pub fn is_inner(&self, f: u32) -> bool
        requires { f < length self.now.topology.level.polygons }
        ensures { result ≡ get_or self.now.inner f false }
    {
        self.inner[f as usize]
    }

    /// Returns the number of steps from level 0, at most 10.
    pub fn depth(&self) -> u32
        ensures { result ≡ self.now.depth }
    {
        self.depth
    }

    /// States what holds for each sparse level.
    pub fn facts(&self)
        ensures { IsSparseTopology self.now }
    {
        let _ = &self.level;
    }
}
