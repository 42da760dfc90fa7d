//! Laws of grids from level to level.

ghost use Rattle.std.specs.Prelude.{ℕ, ◌≡◌, ◌<◌, IsTrue, List, length};
ghost use Rattle.subdiv_model.specs.Polygons.{polygon_at};
ghost use Rattle.subdiv_model.specs.Level.{Level};
ghost use Rattle.subdiv_model.specs.Child.{child_level};
ghost use Rattle.subdiv_model.specs.Patch.{has_patch, patch_points};
ghost use Rattle.subdiv_model.specs.Sparse.{child_number};
ghost use Rattle.mask_laws.specs.Laws.{IsManifoldWithSharpBoundary};
ghost use Rattle.grid_laws.specs.Grids.{HasFacePatch, HasGridAbout, IsGrid, child_grid, child_patch_points, corner_grid, grid_from, inner_corners};

/// The points of the patch of a face form a grid with the face in the middle. A face in the middle of a grid has a patch, and the
/// points of the patch are those of the grid.
pub fn faces_with_patches_have_grids()
    ensures grid { (level : Level) (face : ℕ) → HasFacePatch level face → IsGrid level (patch_points level face) }
    ensures middle { (level : Level) (face : ℕ) → IsTrue (has_patch level face) → polygon_at level.polygons face ≡ inner_corners (patch_points level face) }
    ensures patch { (level : Level) (face : ℕ) (grid : List (List ℕ)) → HasGridAbout level face grid → IsTrue (has_patch level face) }
    ensures same { (level : Level) (face : ℕ) (grid : List (List ℕ)) → HasGridAbout level face grid → patch_points level face ≡ grid }
{}

/// A grid seen from another corner of its middle is a grid. In a manifold whose boundary is infinitely sharp, the points around
/// the child of its first corner are a grid of the next level.
pub fn next_levels_have_grids()
    ensures turned { (level : Level) (grid : List (List ℕ)) (c : ℕ) → IsGrid level grid → IsGrid level (grid_from c grid) }
    ensures next { (level : Level) (grid : List (List ℕ)) → IsManifoldWithSharpBoundary level → IsGrid level grid → IsGrid (child_level level) (child_grid level grid) }
{}

/// The four children of a face with a patch are faces with patches. The points of their patches follow from the points of its
/// patch. The level is a manifold whose boundary is infinitely sharp.
pub fn children_have_patches()
    ensures inside { (level : Level) (face c : ℕ) → face < length level.polygons → IsTrue (has_patch level face) → c < 4
        → child_number level.polygons (face, c) < length (child_level level).polygons }
    ensures patch { (level : Level) (face c : ℕ) → HasFacePatch level face → c < 4 → IsTrue (has_patch (child_level level) (child_number level.polygons (face, c))) }
    ensures points { (level : Level) (face c : ℕ) → HasFacePatch level face → c < 4 → child_patch_points level face c ≡ corner_grid level c (patch_points level face) }
{}
