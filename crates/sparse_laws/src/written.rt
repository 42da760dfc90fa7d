//! The law of the output of a sparse level.

ghost use Rattle.std.specs.Prelude.{◌≡◌, [], get_or};
ghost use Rattle.sparse_laws.specs.Written.{written_here};
ghost use Rattle.sparse_laws.specs.Laws.{SparseRefinement, TestedRefinement, chosen_by, defined_output};

/// The output of a sparse level is the output of the definitions, also of the last level, where the predicate has no faces.
pub fn written_levels_are_the_same()
    ensures refined { (tested : TestedRefinement) → written_here tested.refinement.sparse (chosen_by tested.by) ≡ defined_output tested.refinement }
    ensures last { (refinement : SparseRefinement) → get_or refinement.predicate refinement.sparse.depth [] ≡ []
        → written_here refinement.sparse [] ≡ defined_output refinement }
{}
