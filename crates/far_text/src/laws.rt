//! Laws: the text of levels follows from their counts, and the text of sparse levels from what they contain.
//!
//! Each public function here takes nothing, does nothing and returns nothing: its clauses are the laws.

ghost use Rattle.std.specs.Prelude.{◌≡◌, ℕ, ◌+◌, map, Option, List};
ghost use Rattle.std.specs.List.{range_with_len};
ghost use Rattle.subdiv_model.specs.Level.{Level};
ghost use Rattle.subdiv_model.specs.Child.{refined_level};
ghost use Rattle.subdiv_model.specs.LevelText.{level_line, levels_text};
ghost use Rattle.subdiv_model.specs.Refined.{Point};
ghost use Rattle.subdiv_model.specs.Sparse.{FacePredicate};
ghost use Rattle.subdiv_model.specs.SparseText.{sparse_text};
ghost use Rattle.level_walk.specs.Counts.{counts_of};
ghost use Rattle.far_text.specs.Levels.{counts_line, levels_lines};
ghost use Rattle.far_text.specs.SparseLines.{pointed_levels, sparse_lines};

/// The line of a level follows from the level's counts.
pub fn line_of_a_level()
    ensures { (k : ℕ) (level : Level) → level_line k level ≡ counts_line k (counts_of level) }
{}

/// The lines of the levels up to a depth follow from their counts.
pub fn lines_of_the_levels()
    ensures { (base : Level) (depth : ℕ) → levels_text base depth ≡ levels_lines 0 (map (λ k. counts_of (refined_level base k)) (range_with_len 0 (depth + 1))) }
{}

/// The lines of the sparse levels up to a depth follow from the written part of each level and its points.
pub fn lines_of_sparse_levels()
    ensures { (decimals : Option ℕ) (points : ℕ → List Point) (base : Level) (predicate : FacePredicate) (depth : ℕ)
        → sparse_text decimals points base predicate depth ≡ sparse_lines decimals 0 (pointed_levels points base predicate depth) }
{}
