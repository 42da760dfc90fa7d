//! Laws of levels for continued refinement: a mesh with the tags of a level gives the level again.

ghost use Rattle.std.specs.Prelude.{◌≡◌, ℕ, ◌+◌, length, None, IsTrue};
ghost use Rattle.subdiv_model.specs.MeshFault.{first_mesh_fault};
ghost use Rattle.subdiv_model.specs.ObjMesh.{ObjMesh, has_faces_over_points};
ghost use Rattle.subdiv_model.specs.Level.{Level};
ghost use Rattle.subdiv_model.specs.Base.{base_level};
ghost use Rattle.subdiv_model.specs.Child.{refined_level};
ghost use Rattle.level_laws.specs.Tags.{HasProperTags};
ghost use Rattle.mask_laws.specs.Laws.{IsManifoldMesh, IsManifoldWithSharpBoundary, mesh_level};
ghost use Rattle.continued_laws.specs.Laws.{HasTagsOf, IsFaultless};

/// A mesh with the faces and tags of a level has that level as its level 0. The level is a well-formed manifold, and its boundary
/// is infinitely sharp.
pub fn tags_give_the_level_again()
    ensures { (level : Level) (mesh : ObjMesh) → IsManifoldWithSharpBoundary level → HasTagsOf level mesh → base_level mesh ≡ level }
{}

/// Refining k steps and then j steps is refining k + j steps. Each level of a mesh without fault has no fault.
///
/// Each level of a well-formed manifold whose boundary is infinitely sharp is again one. So is each level of a manifold mesh with
/// well-formed tags.
pub fn steps_go_on()
    ensures levels { (level : Level) (k j : ℕ) → refined_level (refined_level level k) j ≡ refined_level level (k + j) }
    ensures no_fault { (mesh : ObjMesh) (k : ℕ) → IsTrue (has_faces_over_points mesh) → first_mesh_fault (length mesh.points) mesh.faces ≡ None → IsFaultless (mesh_level mesh k) }
    ensures manifold { (level : Level) (k : ℕ) → IsManifoldWithSharpBoundary level → IsManifoldWithSharpBoundary (refined_level level k) }
    ensures mesh { (mesh : ObjMesh) (k : ℕ) → IsManifoldMesh mesh → HasProperTags mesh → IsManifoldWithSharpBoundary (mesh_level mesh k) }
{}
