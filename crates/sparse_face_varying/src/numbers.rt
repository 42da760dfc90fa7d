//! The numbers of selected faces.

ghost use Rattle.std.specs.Prelude.{◌≡◌, ◌+◌, Bool, ◌∷◌, ◌++◌, [], length, map, IfOk, OnOk, if◌then◌else◌};
ghost use Rattle.subdiv_model.specs.Level.{Level};
ghost use Rattle.subdiv_model.specs.Feature.{FaceFacts};
ghost use Rattle.subdiv_model.specs.Sparse.{FacePredicate, selected};
ghost use Rattle.subdiv_model.specs.SparseTexture.{selected_to};
ghost use Rattle.part_laws.specs.Parts.{face_in};
ghost use Rattle.sparse_level.specs.Places.{marked};
ghost use Rattle.sparse_refiner.specs.Refined.{SparseOf};
ghost use Rattle.sparse_level.specs.Faces.{kind_of};
ghost use Rattle.sparse_texture_laws.specs.Selection.{is_selected_kind, selected_numbers};
ghost use Rattle.sparse_face_varying.specs.Chosen.{AreMarkedBy, AreWritten};

use ratio128::Memory;
use sparse_level::{FaceKind, SparseFaces, SparseLevel, SparseStep, SparseValues};
use std::alloc::Global;

// Appends a number if `put` is true.
fn put_if(put: bool, numbers: &mut Vec<u64>, number: u64) -> Result<(), Memory>
    ensures { OnOk result (numbers.new.items ≡ (if put then numbers.old.items ++ number ∷ [] else numbers.old.items)) }
{
    if put {
        numbers.push(number)?;
    }
    Ok(())
}

/// Returns the numbers, in the uniform level, of the faces that a step selects, ascending and counted from 0.
///
/// Error: `Memory`.
pub fn selected_numbers(
    alloc: Global,
    sparse: &SparseLevel,
    step: &SparseStep,
) -> Result<Vec<u64>, Memory>
    requires { length step.now.selected ≡ length sparse.now.topology.level.polygons }
    ensures marked { IfOk result (λ numbers. numbers.items ≡ map (face_in sparse.now.numbers) (marked step.now.selected)) }
    ensures selected { (test : FaceFacts → Bool) (of : SparseOf test sparse.now) → AreMarkedBy test sparse.now step.now
        → IfOk result (λ made. made.items ≡ selected of.base of.predicate sparse.now.depth) }
{
    let mut numbers = Vec::new(alloc);
    for f in 0..sparse.level().faces() {
        put_if(step.is_selected(f), &mut numbers, sparse.number(f))?;
    }
    Ok(numbers)
}

// Returns whether a face is selected.
fn is_selected(kind: FaceKind) -> bool
    ensures { result ≡ is_selected_kind (kind_of kind) }
{
    matches!(kind, FaceKind::Selected)
}

// Returns the numbers of the selected faces of a written level, in the order of the faces.
fn written_as_selected(alloc: Global, faces: &SparseFaces) -> Result<Vec<u64>, Memory>
    ensures { IfOk result (λ numbers. numbers.items ≡ selected_numbers faces.now) }
{
    let mut numbers = Vec::new(alloc);
    for f in 0..faces.len() {
        put_if(is_selected(faces.kind(f)), &mut numbers, faces.number(f))?;
    }
    Ok(numbers)
}

// Returns the numbers of the selected faces of each written level.
fn each_selected<P>(alloc: Global, levels: &[SparseValues<P>]) -> Result<Vec<Vec<u64>>, Memory>
    ensures { IfOk result (λ numbers. map (λ n. n.items) numbers.items ≡ map (λ level. selected_numbers level.faces) levels.now) }
{
    let mut numbers = Vec::with_capacity(alloc, levels.len())?;
    for level in levels {
        let own = written_as_selected(alloc, &level.faces)?;
        numbers.push(own)?;
    }
    Ok(numbers)
}

/// Returns, for each level below `depth`, the numbers of its selected faces in the uniform level, ascending and counted from 0. `levels`
/// contains the written levels from 0 to `depth`.
///
/// Error: `Memory`.
pub fn selected_levels<P>(
    alloc: Global,
    levels: &[SparseValues<P>],
    depth: u32,
) -> Result<Vec<Vec<u64>>, Memory>
    requires { length levels.now ≡ depth + 1 }
    ensures { (base : Level) (predicate : FacePredicate) → AreWritten levels.now base predicate depth
        → IfOk result (λ numbers. map (λ n. n.items) numbers.items ≡ selected_to base predicate depth) }
{
    each_selected(alloc, &levels[..depth as usize])
}
