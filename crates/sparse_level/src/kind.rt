//! The kind of a present face.

ghost use Rattle.std.specs.Prelude.{◌≡◌, ◌<◌, false, length, map, get_or, IfOk};
ghost use Rattle.std.specs.List.{range_with_len};
ghost use Rattle.sparse_laws.specs.Written.{kind_in};
ghost use Rattle.sparse_level.specs.View.{level_of};
ghost use Rattle.sparse_level.specs.Places.{marked};
ghost use Rattle.sparse_level.specs.Faces.{kind_of};

use crate::sparse::SparseLevel;
use ratio128::Memory;
use std::alloc::Global;

/// The kind of a present face: the first of these that fits it.
#[derive(Clone, Copy, Debug, PartialEq, Eq)]
pub enum FaceKind {
    /// The face is a hole.
    Hole,
    /// The parent of the face is not selected.
    Outer,
    /// The face is selected for refinement.
    Selected,
    /// The face is refined no further.
    Leaf,
}

// Returns whether a face is marked. A face beyond the end of the marks is not.
fn is_marked(selected: &[bool], f: u32) -> bool
    ensures { result ≡ get_or selected.now f false }
{
    (f as usize) < selected.len() && selected[f as usize]
}

// Returns the first kind that fits a face.
fn kind_at(sparse: &SparseLevel, selected: &[bool], f: u32) -> FaceKind
    requires { f < length sparse.now.topology.level.polygons }
    ensures { kind_of result ≡ kind_in (level_of sparse.now) (marked selected.now) f }
{
    if sparse.level().is_hole(f) {
        return FaceKind::Hole;
    }
    if !sparse.is_inner(f) {
        return FaceKind::Outer;
    }
    if is_marked(selected, f) {
        return FaceKind::Selected;
    }
    FaceKind::Leaf
}

// Returns the kinds of all faces.
pub(crate) fn put_kinds(
    alloc: Global,
    sparse: &SparseLevel,
    selected: &[bool],
) -> Result<Vec<FaceKind>, Memory>
    ensures { IfOk result (λ kinds. map kind_of kinds.items
        ≡ map (kind_in (level_of sparse.now) (marked selected.now)) (range_with_len 0 (length sparse.now.topology.level.polygons))) }
{
    let faces = sparse.level().faces();
    let mut kinds = Vec::with_capacity(alloc, faces as usize)?;
    for f in 0..faces {
        kinds.push_reserved(kind_at(sparse, selected, f));
    }
    Ok(kinds)
}
