//! Laws of the boundary of a cut mesh, level by level.

ghost use Rattle.std.specs.Prelude.{◌≡◌, ℕ, ◌<◌, ℤ, pos, List, [], ◌∷◌, length};
ghost use Rattle.subdiv_model.specs.Edges.{is_boundary};
ghost use Rattle.subdiv_model.specs.Manifold.{IsManifold};
ghost use Rattle.subdiv_model.specs.ObjMesh.{ObjMesh};
ghost use Rattle.subdiv_model.specs.Mask.{CatmullClark, Linear};
ghost use Rattle.subdiv_model.specs.Value.{IsSameValue, whole_value};
ghost use Rattle.subdiv_model.specs.Refined.{point_value, control_values, refined_values};
ghost use Rattle.subdiv_model.specs.Cut.{SmoothSeams, BoundarySeams, cut_level};
ghost use Rattle.subdiv_model.specs.Examples.{joined_quads};
ghost use Rattle.theorems.specs.Descendants.{boundary_descendants};
ghost use Rattle.theorems.specs.Seams.{SeamEnd, cut_value, halves_of_joined_quads, is_seam_descendant, sharp_level, smooth_level};

/// Where the boundary of a cut mesh stays sharp, texture is refined linearly along it. At every depth each end of a descendant of
/// a boundary edge has the value that linear refinement gives it, for all control numbers.
///
/// Both values have denominators above 0. The descendants are exactly the boundary edges of their level, in either direction.
/// Each level has the points and faces that it has with smooth seams.
pub fn texture_is_linear_on_sharp_seams()
    ensures linear { (end : SeamEnd) (controls : List ℤ)
        → IsSameValue (cut_value BoundarySeams CatmullClark controls end) (cut_value SmoothSeams Linear controls end) }
    ensures above_zero { (end : SeamEnd) (controls : List ℤ)
        → (0 < (cut_value BoundarySeams CatmullClark controls end).den) × (0 < (cut_value SmoothSeams Linear controls end).den) }
    ensures descendants { (mesh : ObjMesh) (k : ℕ) (edge : ℕ × ℕ) → IsManifold (length mesh.points) mesh.faces
        → is_seam_descendant mesh k edge ≡ is_boundary (sharp_level mesh k).polygons edge }
    ensures same_points { (mesh : ObjMesh) (k : ℕ) → (sharp_level mesh k).point_count ≡ (smooth_level mesh k).point_count }
    ensures same_faces { (mesh : ObjMesh) (k : ℕ) → (sharp_level mesh k).polygons ≡ (smooth_level mesh k).polygons }
{}

/// An example: two quads that share an edge without a seam, their six outer edges, and the halves of these. A control number of 8 at a
/// corner stays 8 where the boundary stays sharp, and becomes 6 elsewhere.
pub fn boundary_of_two_quads()
    ensures edges { boundary_descendants (cut_level BoundarySeams joined_quads) 0
        ≡ (0, 1) ∷ (2, 3) ∷ (3, 0) ∷ (1, 4) ∷ (4, 5) ∷ (5, 2) ∷ [] }
    ensures halves { boundary_descendants (cut_level BoundarySeams joined_quads) 1 ≡ halves_of_joined_quads }
    ensures sharp { IsSameValue
        (point_value (refined_values (cut_level BoundarySeams joined_quads) CatmullClark (control_values (pos 8 ∷ [])) 1) 0)
        (whole_value (pos 8)) }
    ensures smooth { IsSameValue
        (point_value (refined_values (cut_level SmoothSeams joined_quads) CatmullClark (control_values (pos 8 ∷ [])) 1) 0)
        (whole_value (pos 6)) }
{}
