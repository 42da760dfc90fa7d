//! Maps of sparse levels.

ghost use Rattle.std.specs.Prelude.{◌≡◌, ℕ, suc, ◌^◌, ◌<◌, ◌≤◌, true, length, map, get_or, IfOk, OnErr};
ghost use Rattle.std.specs.List.{All, range_with_len};
ghost use Rattle.subdiv_model.specs.Level as model;
ghost use Rattle.subdiv_model.specs.Sparse.{FacePredicate};
ghost use Rattle.subdiv_model.specs.Leaf.{base_location, is_corner_of, leaf_of};
ghost use Rattle.leaf_laws.specs.FirstLeaf.{IsInGrid};
ghost use Rattle.patch_map.specs.View.{location_of};
ghost use Rattle.patch_map.specs.Map.{Rises, grown, map_of_base, starts_of};
ghost use Rattle.patch_map.specs.Found.{leaf_in};
ghost use Rattle.patch_map.specs.Is.{IsMapOf, IsStepOf};

use crate::below::leaf_below;
use crate::firsts::{first_places, quad_starts};
use crate::leaf::Leaf;
use crate::level::MapLevel;
use child_slots::first_child_of;
use level_topology::Level;
use ratio128::Memory;
use sparse_level::{SparseLevel, SparseStep};
use std::alloc::Global;
use std::marker::Model;

// The number of corners of each face of a level.
fn face_sizes(alloc: Global, level: &Level) -> Result<Vec<u32>, Memory>
    ensures { IfOk result (λ sizes. sizes.items ≡ map length level.now.level.polygons) }
{
    level.facts();
    let mut sizes = Vec::with_capacity(alloc, level.faces() as usize)?;
    for f in 0..level.faces() {
        sizes.push(level.face_vertices(f).len() as u32)?;
    }
    Ok(sizes)
}

// The number of the first child of each face of a level.
fn face_starts(alloc: Global, level: &Level) -> Result<Vec<u64>, Memory>
    ensures { IfOk result (λ starts. starts.items ≡ starts_of level.now.level.polygons (range_with_len 0 (length level.now.level.polygons))) }
{
    let mut starts = Vec::with_capacity(alloc, level.faces() as usize)?;
    for f in 0..level.faces() {
        starts.push(u64::from(first_child_of(level, f)))?;
    }
    Ok(starts)
}

/// A map from the places of the faces of level 0 to the leaves of the sparse levels that it has so far. It takes at most 24 bytes for
/// each face.
#[derive(Drop)]
pub struct PatchMap {
    alloc: Global,
    sizes: Vec<u32>,
    // The number, in the next uniform level, of the first child of each face of the last level.
    starts: Vec<u64>,
    levels: Vec<MapLevel>,
}

impl Model for PatchMap {
    ghost use Rattle.patch_map.specs.Map.{LevelMap, level_map};

    ghost Value = { LevelMap };

    ghost view = { λ m. level_map m.sizes.items m.starts.items m.levels.items };
}

impl PatchMap {
    /// Returns the map of level 0: each of its faces is a leaf.
    ///
    /// Error: `Memory`.
    pub fn start(alloc: Global, base: &SparseLevel) -> Result<PatchMap, Memory>
        requires { base.now.depth ≡ 0 }
        ensures map { IfOk result (λ levels. levels ≡ map_of_base base.now.topology.level.polygons) }
        ensures is { (predicate : FacePredicate) → IfOk result (IsMapOf base.now.topology.level predicate 0) }
    {
        let sizes = face_sizes(alloc, base.level())?;
        let starts = face_starts(alloc, base.level())?;
        Ok(PatchMap {
            alloc,
            sizes,
            starts,
            levels: Vec::new(alloc),
        })
    }

    // Adds a level, given the selected faces of the last level.
    fn push_level(&mut self, selected: &[bool], depth: u32, numbers: &[u64]) -> Result<(), Memory>
        requires few { length numbers.now < 2 ^ 32 }
        requires small { All (λ n. n < 2 ^ 60) numbers.now }
        ensures map { Rises self.old.starts → IfOk result (λ _. self.new ≡ grown self.old selected.now depth numbers.now) }
        ensures failed { OnErr result (self.new ≡ self.old) }
    {
        let firsts = first_places(self.alloc, selected, &self.starts, numbers)?;
        let starts = quad_starts(self.alloc, numbers)?;
        let kept = numbers.to_vec(self.alloc)?;
        self.levels.push(MapLevel::of(depth, firsts, kept))?;
        self.starts = starts;
        Ok(())
    }

    /// Adds the next level to the map. `selected` marks the selected faces of the last level.
    ///
    /// Error: `Memory`; the map is unchanged then.
    pub fn grow_to(&mut self, selected: &[bool], next: &SparseLevel) -> Result<(), Memory>
        ensures map { Rises self.old.starts → IfOk result (λ _. self.new ≡ grown self.old selected.now next.now.depth next.now.numbers) }
        ensures failed { OnErr result (self.new ≡ self.old) }
    {
        next.facts();
        next.level().facts();
        self.push_level(selected, next.depth(), next.numbers())
    }

    /// Adds to the map the level of a step. The step starts at the map's last level.
    ///
    /// Error: `Memory`; the map is unchanged then.
    pub fn grow(&mut self, sparse: &SparseLevel, step: &SparseStep) -> Result<(), Memory>
        ensures map { Rises self.old.starts → IfOk result (λ _. self.new ≡ grown self.old step.now.selected step.now.depth step.now.numbers) }
        ensures is { (base : model.Level) (predicate : FacePredicate) → IsMapOf base predicate sparse.now.depth self.old → IsStepOf base predicate sparse.now step.now
            → IfOk result (λ _. IsMapOf base predicate step.now.depth self.new) }
        ensures failed { OnErr result (self.new ≡ self.old) }
    {
        sparse.facts();
        step.facts();
        step.child().level().facts();
        self.push_level(step.selected(), step.depth(), step.numbers())
    }

    /// The number of faces of level 0.
    pub fn faces(&self) -> usize
        ensures { result ≡ length self.now.sizes }
    {
        self.sizes.len()
    }

    /// The number of corners of a face of level 0.
    pub fn size(&self, face: u32) -> u32
        requires { face < length self.now.sizes }
        ensures { result ≡ get_or self.now.sizes face 0 }
    {
        self.sizes[face as usize]
    }

    // The leaf of a place on a face of level 0.
    fn leaf_of(&self, at: Leaf, grid: u64) -> Leaf
        requires face { at.number < length self.now.sizes }
        requires inside { IsInGrid grid (location_of at) }
        requires grid { grid ≤ 2 ^ 16 }
        ensures { location_of result ≡ leaf_in self.now grid (location_of at) }
    {
        let is_quad = self.sizes[at.number as usize] == 4;
        leaf_below(&self.levels, is_quad, at.number, at, grid)
    }

    /// Returns the leaf of the place (`i`/`grid`, `j`/`grid`) of a face of level 0. `i` counts from corner 0 towards corner 1, `j` from
    /// corner 0 towards corner 3. `grid` is at most 2^16, and `i` and `j` are at most `grid`.
    ///
    /// For a quad `corner` is 0. For any other face the place is one of the child face of `corner`, counted from 0. The search takes no
    /// memory.
    pub fn find(&self, face: u32, corner: u32, i: u64, j: u64, grid: u64) -> Leaf
        requires face { face < length self.now.sizes }
        requires corner { is_corner_of (get_or self.now.sizes face 0) corner ≡ true }
        requires grid { grid ≤ 2 ^ 16 }
        requires i { i ≤ grid }
        requires j { j ≤ grid }
        ensures leaf { location_of result ≡ leaf_in self.now grid (base_location face corner (i, j)) }
        ensures is { (base : model.Level) (predicate : FacePredicate) (depth : ℕ) → IsMapOf base predicate depth self.now
            → location_of result ≡ leaf_of grid depth base predicate (base_location face corner (i, j)) }
    {
        let at = Leaf {
            level: 0,
            number: u64::from(face),
            corner,
            s: i,
            t: j,
        };
        self.leaf_of(at, grid)
    }
}
