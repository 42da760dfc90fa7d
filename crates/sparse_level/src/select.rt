//! The faces that a rule selects.

ghost use Rattle.std.specs.Prelude.{◌≡◌, ◌<◌, length, map, IfOk};
ghost use Rattle.std.specs.List.{range_with_len};
ghost use Rattle.feature_select.specs.Rule.{AnswersTest};
ghost use Rattle.sparse_laws.specs.Selected.{is_selected_in};
ghost use Rattle.sparse_level.specs.View.{level_of};

use crate::sparse::SparseLevel;
use feature_select::{FaceTest, SelectRule};
use level_topology::FaceFacts;
use ratio128::Memory;
use std::alloc::Global;

// Returns whether a face is inner and the rule selects it.
fn is_selected<T: FaceTest, F: Fn(&FaceFacts) -> bool>(
    sparse: &SparseLevel,
    chosen: &SelectRule<T, F>,
    f: u32,
) -> bool
    requires known { f < length sparse.now.topology.level.polygons }
    requires answers { AnswersTest F.Fn chosen.now.0 (T.meets chosen.now.1) }
    ensures { result ≡ is_selected_in (T.meets chosen.now.1) (level_of sparse.now) f }
{
    if !sparse.is_inner(f) {
        return false;
    }
    let level = sparse.level();
    level.facts();
    chosen.holds(&level.face_facts(f, sparse.depth(), sparse.number(f)))
}

/// Returns a mark for each face of a sparse level: true where the face is inner and the rule selects it. The call applies
/// the rule only to inner faces.
///
/// Reports `Memory` where memory runs out.
pub fn select_faces<T: FaceTest, F: Fn(&FaceFacts) -> bool>(
    alloc: Global,
    sparse: &SparseLevel,
    chosen: &SelectRule<T, F>,
) -> Result<Vec<bool>, Memory>
    requires { AnswersTest F.Fn chosen.now.0 (T.meets chosen.now.1) }
    ensures { IfOk result (λ marks. marks.items
        ≡ map (is_selected_in (T.meets chosen.now.1) (level_of sparse.now)) (range_with_len 0 (length sparse.now.topology.level.polygons))) }
{
    let faces = sparse.level().faces();
    let mut marks = Vec::with_capacity(alloc, faces as usize)?;
    for f in 0..faces {
        marks.push(is_selected(sparse, chosen, f))?;
    }
    Ok(marks)
}
