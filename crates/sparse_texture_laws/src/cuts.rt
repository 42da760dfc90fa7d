//! Laws of cut levels: a cut level refines like the level it cuts, and its present faces are present in that level.

ghost use Rattle.std.specs.Prelude.{ℕ, IsTrue};
ghost use Rattle.subdiv_model.specs.Level.{Level};
ghost use Rattle.subdiv_model.specs.ObjMesh.{ObjMesh};
ghost use Rattle.subdiv_model.specs.Base.{base_level};
ghost use Rattle.subdiv_model.specs.Child.{refined_level};
ghost use Rattle.subdiv_model.specs.Cut.{SeamMode, cut_level};
ghost use Rattle.texture_laws.specs.CutMesh.{vertex_of};
ghost use Rattle.sparse_texture_laws.specs.Cut.{HaveSameFaces, IsCutOf, CutFace, is_inner, is_present, is_present_in_cut};

/// Level 0 of the cut mesh is a cut of level 0 of the mesh: each of its points represents its vertex. Both levels have as many
/// faces, each with as many corners, and the same holes.
pub fn cut_meshes_are_cuts_of_the_mesh()
    ensures cut { (mode : SeamMode) (mesh : ObjMesh) → IsCutOf (vertex_of mesh) (base_level mesh) (cut_level mode mesh) }
    ensures faces { (mode : SeamMode) (mesh : ObjMesh) → HaveSameFaces (base_level mesh) (cut_level mode mesh) }
{}

/// If a level is a cut of another, it has the same faces: as many, each with as many corners, and the same holes. Both hold again
/// for their levels after equally many steps.
pub fn cuts_refine_to_cuts()
    ensures faces { (name : ℕ → ℕ) (base cut : Level) → IsCutOf name base cut → HaveSameFaces base cut }
    ensures same { (base cut : Level) (k : ℕ) → HaveSameFaces base cut → HaveSameFaces (refined_level base k) (refined_level cut k) }
    ensures cuts { (name : ℕ → ℕ) (base cut : Level) (k : ℕ) → IsCutOf name base cut
        → (names : ℕ → ℕ) × IsCutOf names (refined_level base k) (refined_level cut k) }
{}

/// Let a cut use the selected faces of a level. Then each inner face of the level is present in the cut. Each face that is present
/// in the cut is present in the level.
pub fn present_faces_of_cuts_are_present()
    ensures inner { (at : CutFace) → HaveSameFaces at.base at.cut → IsTrue (is_inner at) → IsTrue (is_present_in_cut at) }
    ensures present { (name : ℕ → ℕ) (at : CutFace) → IsCutOf name at.base at.cut → IsTrue (is_present_in_cut at) → IsTrue (is_present at) }
{}
