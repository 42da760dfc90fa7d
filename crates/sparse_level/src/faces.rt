//! The faces of a sparse level in the form in which they are written.

ghost use Rattle.std.specs.Prelude.{◌≡◌, ◌<◌, length, IfOk};
ghost use Rattle.std.specs.List.{sum_by};
ghost use Rattle.sparse_laws.specs.Written.{written_here};
ghost use Rattle.sparse_level.specs.View.{level_of};
ghost use Rattle.sparse_level.specs.Places.{marked};
ghost use Rattle.sparse_level.specs.Faces.{kind_of, face_at};

use crate::corners::NumberedCorners;
use crate::kind::{FaceKind, put_kinds};
use crate::sparse::SparseLevel;
use ratio128::Memory;
use std::alloc::Global;
use std::marker::Model;

/// The faces of a sparse level in the form in which they are written, and the number of points at their corners.
///
/// It takes 13 bytes a face and 4 bytes a corner.
#[derive(Drop)]
pub struct SparseFaces {
    kinds: Vec<FaceKind>,
    numbers: Vec<u64>,
    corners: NumberedCorners,
}

impl Model for SparseFaces {
    ghost use Rattle.subdiv_model.specs.SparseText.{WrittenLevel};
    ghost use Rattle.sparse_level.specs.Faces.{written_of, IsWritten};

    ghost Value = { WrittenLevel };

    ghost view = { λ s. written_of s.kinds.items s.numbers.items s.corners };

    ghost invariant = { λ s. IsWritten s.kinds.items s.numbers.items s.corners };
}

// Returns the number of each face in the uniform level.
fn put_numbers(alloc: Global, sparse: &SparseLevel) -> Result<Vec<u64>, Memory>
    ensures { IfOk result (λ numbers. numbers.items ≡ sparse.now.numbers) }
{
    sparse.facts();
    let faces = sparse.level().faces();
    let mut numbers = Vec::with_capacity(alloc, faces as usize)?;
    for f in 0..faces {
        numbers.push_reserved(sparse.number(f));
    }
    Ok(numbers)
}

impl SparseFaces {
    /// Returns the faces of a sparse level. `selected` marks its selected faces; it may be shorter than the list of faces,
    /// and a face without a mark is not selected.
    ///
    /// Reports `Memory` where memory runs out.
    pub fn of(alloc: Global, sparse: &SparseLevel, selected: &[bool]) -> Result<SparseFaces, Memory>
        ensures { IfOk result (λ faces. faces ≡ written_here (level_of sparse.now) (marked selected.now)) }
    {
        sparse.facts();
        let level = sparse.level();
        level.facts();
        Ok(SparseFaces {
            kinds: put_kinds(alloc, sparse, selected)?,
            numbers: put_numbers(alloc, sparse)?,
            corners: NumberedCorners::of(alloc, level)?,
        })
    }

    /// Returns the number of points at the corners of the faces.
    pub fn points(&self) -> u32
        ensures { result ≡ self.now.point_count }
    {
        self.corners.points()
    }

    /// Returns the number of faces.
    pub fn len(&self) -> u32
        ensures { result ≡ length self.now.faces }
    {
        self.kinds.len() as u32
    }

    /// Returns the number of corners of all faces together.
    pub fn corner_count(&self) -> u32
        ensures { result ≡ sum_by (λ face. length face.corners) self.now.faces }
    {
        self.corners.count()
    }

    /// Returns the kind of face `f`, counted from 0.
    pub fn kind(&self, f: u32) -> FaceKind
        requires { f < length self.now.faces }
        ensures { kind_of result ≡ (face_at self.now f).kind }
    {
        self.kinds[f as usize]
    }

    /// Returns the number of face `f` in the uniform level, counted from 0.
    pub fn number(&self, f: u32) -> u64
        requires { f < length self.now.faces }
        ensures { result ≡ (face_at self.now f).number }
    {
        self.numbers[f as usize]
    }

    /// Returns the corners of face `f` as numbers of points, counted from 0. Points are numbered by first appearance among
    /// the corners.
    pub fn corners(&self, f: u32) -> &[u32]
        requires { f < length self.now.faces }
        ensures { result.now ≡ (face_at self.now f).corners }
    {
        self.corners.list(f)
    }
}
