//! Laws of the next sparse level.

ghost use Rattle.std.specs.Prelude.{◌≡◌, ℕ, length, IsTrue};
ghost use Rattle.sparse_laws.specs.SparseLevels.{IsSparse};
ghost use Rattle.sparse_laws.specs.NextSparse.{next_places};
ghost use Rattle.sparse_laws.specs.Laws.{NextRefinement, OverflowsOnChosen, SparseRefinement, TestedRefinement, chosen_by, present_after, uniform_halves_overflow};

/// The next level of a sparse level is the one of the definitions, for each predicate that agrees with the test at this level.
pub fn next_levels_are_sparse()
    ensures { (refinement : SparseRefinement) (made : NextRefinement refinement) → IsSparse refinement.base refinement.predicate made.next }
{}

/// The next sparse level has as many faces as the definitions find present.
pub fn next_faces_are_counted()
    ensures { (tested : TestedRefinement)
        → length (next_places tested.refinement.sparse.level.polygons (chosen_by tested.by)) ≡ present_after tested.refinement }
{}

/// Halves of edges overflow at some vertex of a selected face exactly if they do at a uniform point with a present child.
pub fn overflows_are_the_same()
    ensures uniform { (tested : TestedRefinement) (v : ℕ) → OverflowsOnChosen tested v → IsTrue (uniform_halves_overflow tested.refinement) }
    ensures sparse { (tested : TestedRefinement) → IsTrue (uniform_halves_overflow tested.refinement) → (v : ℕ) × OverflowsOnChosen tested v }
{}
