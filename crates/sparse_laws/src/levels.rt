//! Laws of one sparse level: level 0, the facts of faces, and the selected faces.

ghost use Rattle.std.specs.Prelude.{◌≡◌, ℕ, ◌<◌, true, false, map, get_or, IsTrue};
ghost use Rattle.subdiv_model.specs.Polygons.{is_over};
ghost use Rattle.subdiv_model.specs.Sharpness.{Smooth, Infinite};
ghost use Rattle.subdiv_model.specs.Level.{Level};
ghost use Rattle.subdiv_model.specs.Sparse.{FacePredicate};
ghost use Rattle.part_laws.specs.Parts.{face_in};
ghost use Rattle.sparse_laws.specs.SparseLevels.{IsSparse, whole_base};
ghost use Rattle.sparse_laws.specs.Selected.{facts_in};
ghost use Rattle.sparse_laws.specs.Laws.{BoundaryEdge, HasSharpBoundary, InnerFace, IsWholePoint, SparseRefinement, TestedRefinement, chosen_by, selected_at, uniform_facts};

/// Every level is sparse level 0 of itself, for each predicate.
pub fn whole_levels_are_sparse()
    ensures { (base : Level) (predicate : FacePredicate) → IsTrue (is_over base.point_count base.polygons) → IsSparse base predicate (whole_base base) }
{}

/// At a complete point a sparse level has all faces of the uniform level.
pub fn complete_points_are_whole()
    ensures { (refinement : SparseRefinement) (p : ℕ) → p < refinement.sparse.level.point_count → get_or refinement.sparse.complete p false ≡ true → IsWholePoint refinement p }
{}

/// An inner face has the same facts in the sparse level and in the uniform level.
pub fn facts_of_inner_faces_are_the_same()
    ensures { (refinement : SparseRefinement) (at : InnerFace refinement) → facts_in refinement.sparse at.face ≡ uniform_facts at }
{}

/// A test selects the faces that the definitions select, for each predicate that agrees with the test at this level.
pub fn selected_faces_are_the_same()
    ensures { (tested : TestedRefinement)
        → map (face_in tested.refinement.sparse.numbers) (chosen_by tested.by) ≡ selected_at tested.refinement }
{}

/// If the boundary of level 0 is infinitely sharp, each edge of one face at a complete point of a sparse level is.
pub fn boundaries_at_complete_points_are_sharp()
    ensures { (refinement : SparseRefinement) (edge : BoundaryEdge refinement) → HasSharpBoundary refinement.base → get_or refinement.sparse.level.edge_sharpness edge.e Smooth ≡ Infinite }
{}
