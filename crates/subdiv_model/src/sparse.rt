//! Examples of features, and of the faces and points that are present in sparse levels, each proved by computing.

ghost use Rattle.std.specs.Prelude.{◌≡◌, false, true, None, [], ◌∷◌, codes, map};
ghost use Rattle.std.specs.List.{range_with_len};
ghost use Rattle.subdiv_model.specs.Examples.{cube, creased_cube};
ghost use Rattle.subdiv_model.specs.ExampleSparse.{all_faces, cornered_strip, counts_at, features, sharp_square, square_controls, strip};
ghost use Rattle.subdiv_model.specs.ExampleTexts.{sharp_square_sparse_text};
ghost use Rattle.subdiv_model.specs.Feature.{facts_of, is_feature, is_selectable};
ghost use Rattle.subdiv_model.specs.Level.{plain_level};
ghost use Rattle.subdiv_model.specs.Mask.{CatmullClark};
ghost use Rattle.subdiv_model.specs.Refined.{refined_points};
ghost use Rattle.subdiv_model.specs.Channel.{Tables};
ghost use Rattle.subdiv_model.specs.Fault.{Positions};
ghost use Rattle.subdiv_model.specs.Sparse.{inner, is_whole, present, present_points, selected};
ghost use Rattle.subdiv_model.specs.SparseFaults.{points_with_child, sparse_faults, sparse_levels};
ghost use Rattle.subdiv_model.specs.SparseText.{HoleFace, LeafFace, OuterFace, SelectedFace, kind_of_face, sparse_level_text, sparse_text, written_level, written_points};

/// Each corner of a cube has three edges, so all of the cube is refined twice.
pub fn sparse_levels_of_a_cube()
    ensures base { counts_at (plain_level 8 cube) 0 ≡ (8, 6) }
    ensures first { counts_at (plain_level 8 cube) 1 ≡ (26, 24) }
    ensures second { counts_at (plain_level 8 cube) 2 ≡ (98, 96) }
{}

/// The facts of faces of a cube with a hole and a crease, and of a strip.
pub fn facts_of_faces()
    ensures hole { facts_of creased_cube 0 0 ≡ record { level = 0; number = 0; size = 4; hole = true; irregular = 4; sharp = 1 } }
    ensures unselectable { is_selectable (facts_of creased_cube 0 0) ≡ false }
    ensures no_feature { is_feature (facts_of creased_cube 0 0) ≡ false }
    ensures feature { is_feature (facts_of creased_cube 0 1) ≡ true }
    ensures end { facts_of strip 0 2 ≡ record { level = 0; number = 2; size = 4; hole = false; irregular = 2; sharp = 0 } }
    ensures middle { is_feature (facts_of strip 0 1) ≡ false }
{}

/// The ends of a strip are features if its corners are smooth. At depth 1 the children of the middle quad are present but not
/// inner.
pub fn sparse_levels_of_a_strip()
    ensures selected { selected strip (features strip 1) 0 ≡ 0 ∷ 2 ∷ [] }
    ensures present { present strip (features strip 1) 1 ≡ 0 ∷ 1 ∷ 2 ∷ 3 ∷ 4 ∷ 5 ∷ 6 ∷ 7 ∷ 8 ∷ 9 ∷ 10 ∷ 11 ∷ [] }
    ensures inner { inner strip (features strip 1) 1 ≡ 0 ∷ 1 ∷ 2 ∷ 3 ∷ 8 ∷ 9 ∷ 10 ∷ 11 ∷ [] }
    ensures next { selected strip (features strip 2) 1 ≡ 0 ∷ 3 ∷ 9 ∷ 10 ∷ [] }
    ensures whole { is_whole strip (features strip 2) 2 1 ≡ false }
{}

/// If the corners are sharp too, no face is a feature, and no face is present after level 0.
pub fn sparse_levels_without_features()
    ensures selected { selected cornered_strip (features cornered_strip 1) 0 ≡ [] }
    ensures present { present cornered_strip (features cornered_strip 1) 1 ≡ [] }
    ensures points { present_points cornered_strip (features cornered_strip 1) 1 ≡ [] }
    ensures all { selected cornered_strip (all_faces cornered_strip 1) 0 ≡ 0 ∷ 1 ∷ 2 ∷ [] }
{}

/// The text of a level contains its counts, its points, and its present faces with their kinds, numbers and corners.
pub fn texts_of_sparse_levels()
    ensures strip { sparse_level_text None 0 (written_level strip (features strip 1) 0) []
        ≡ codes "level 0 points 8 faces 3\nf s 0 1 2 3 4\nf l 1 2 5 6 3\nf s 2 5 7 8 6\n" }
    ensures points { written_points strip (features strip 1) 0 ≡ 0 ∷ 1 ∷ 5 ∷ 4 ∷ 2 ∷ 6 ∷ 3 ∷ 7 ∷ [] }
    ensures square { sparse_text None (refined_points sharp_square CatmullClark 1 square_controls) sharp_square (features sharp_square 1) 1
        ≡ sharp_square_sparse_text }
{}

/// The kinds of faces of the strip at depth 1, and of the cube with a hole.
pub fn kinds_of_faces()
    ensures strip { map (kind_of_face strip (features strip 1) 1) (range_with_len 2 4) ≡ LeafFace ∷ LeafFace ∷ OuterFace ∷ OuterFace ∷ [] }
    ensures hole { kind_of_face creased_cube (features creased_cube 1) 0 0 ≡ HoleFace }
    ensures selected { kind_of_face creased_cube (features creased_cube 1) 0 1 ≡ SelectedFace }
{}

/// All points of the strip have a point at depth 1, and none of the strip with sharp corners has. No number passes its bound.
pub fn numbers_of_sparse_levels()
    ensures points { points_with_child strip (features strip 1) 8 0 ≡ 0 ∷ 1 ∷ 2 ∷ 3 ∷ 4 ∷ 5 ∷ 6 ∷ 7 ∷ [] }
    ensures none { points_with_child cornered_strip (features cornered_strip 1) 8 0 ≡ [] }
    ensures fine { sparse_faults Tables (record { base = strip; scheme = CatmullClark; greatest = 3; common = 1 }) (features strip 2) Positions 2 ≡ [] }
    ensures entries { (sparse_levels (record { base = strip; scheme = CatmullClark; greatest = 3; common = 1 }) (features strip 1)).entries 0 ≡ 8 }
{}
