//! Laws of meshes: a mesh made of a level of another mesh refines like that level.

ghost use Rattle.std.specs.Prelude.{◌≡◌, ℕ, ◌+◌, Bool, length, None};
ghost use Rattle.subdiv_model.specs.MeshFault.{first_mesh_fault};
ghost use Rattle.subdiv_model.specs.ObjMesh.{ObjMesh};
ghost use Rattle.subdiv_model.specs.Child.{faces_after};
ghost use Rattle.subdiv_model.specs.Mask.{Scheme, CatmullClark};
ghost use Rattle.subdiv_model.specs.Text.{tags_text};
ghost use Rattle.level_laws.specs.Tags.{HasProperTags};
ghost use Rattle.mask_laws.specs.Laws.{IsManifoldMesh, mesh_level};
ghost use Rattle.continued_laws.specs.Laws.{ContinuedMesh, IsContinuation, mesh_points, point_lines, text_after};
ghost use Rattle.continued_laws.specs.Examples.{tagged_quads, quads_after_a_step};

/// Let a second mesh have the tags and points of level k of a first. Then its level j is level k + j of the first, with the same
/// tags and as many faces. The `v` lines and the texts of both levels are equal, in lowest terms.
pub fn meshes_go_on()
    ensures levels { (going : ContinuedMesh) (j : ℕ) → mesh_level going.second j ≡ mesh_level going.first (going.steps + j) }
    ensures tags { (going : ContinuedMesh) (j : ℕ) → tags_text (mesh_level going.second j) ≡ tags_text (mesh_level going.first (going.steps + j)) }
    ensures faces { (going : ContinuedMesh) (j : ℕ) → faces_after going.second.faces j ≡ faces_after going.first.faces (going.steps + j) }
    ensures points { (going : ContinuedMesh) (j : ℕ) → point_lines (mesh_points going.scheme going.second j) ≡ point_lines (mesh_points going.scheme going.first (going.steps + j)) }
    ensures text { (going : ContinuedMesh) (holes : Bool) (j : ℕ) → text_after going.scheme holes going.second j ≡ text_after going.scheme holes going.first (going.steps + j) }
{}

/// A mesh with the tags and points of a level of a manifold mesh has no fault and is a manifold. Its tags are well formed.
pub fn continuations_have_no_fault()
    ensures fault { (scheme : Scheme) (k : ℕ) (first second : ObjMesh) → IsContinuation scheme k first second
        → first_mesh_fault (length second.points) second.faces ≡ None }
    ensures manifold { (scheme : Scheme) (k : ℕ) (first second : ObjMesh) → IsContinuation scheme k first second → IsManifoldMesh second }
    ensures tags { (scheme : Scheme) (k : ℕ) (first second : ObjMesh) → IsContinuation scheme k first second → HasProperTags second }
{}

/// An example: two quads that share a crease, with a corner and a hole. Their points after one step, over 8, and the tags of level
/// 1 make a mesh that continues from there.
pub fn quads_go_on()
    ensures { IsContinuation CatmullClark 1 tagged_quads quads_after_a_step }
{}
