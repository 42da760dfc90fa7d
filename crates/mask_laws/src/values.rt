//! Laws of refined values.

ghost use Rattle.std.specs.Prelude.{ℤ};
ghost use Rattle.std.specs.List.{AllZip};
ghost use Rattle.subdiv_model.specs.Level.{Level};
ghost use Rattle.subdiv_model.specs.Value.{IsWholeOver};
ghost use Rattle.subdiv_model.specs.ObjMesh.{ObjMesh};
ghost use Rattle.subdiv_model.specs.Base.{base_level};
ghost use Rattle.subdiv_model.specs.Refined.{refined_denominators};
ghost use Rattle.level_laws.specs.Tags.{HasProperTags};
ghost use Rattle.mask_laws.specs.Laws.{Refinement, IsManifoldMesh, IsManifoldWithSharpBoundary, HasMeansInSteps, IsTranslatedBy, values_of};

/// Each refined value is a whole number over the common denominator of its point, whatever the control points.
pub fn values_are_whole_over_common_denominators()
    ensures { (level : Level) (refinement : Refinement level) → AllZip (λ value den. IsWholeOver den value)
        (values_of refinement) (refined_denominators level refinement.scheme refinement.steps) }
{}

/// If all control points move by a whole number in one coordinate, each refined point moves by that number.
///
/// The law holds for level 0 of every manifold mesh and for manifold levels whose boundary is infinitely sharp. It holds wherever
/// the masks of each step are means.
pub fn translating_controls_translates_points()
    ensures manifold { (level : Level) (refinement : Refinement level) (t : ℤ) → IsManifoldWithSharpBoundary level
        → IsTranslatedBy t refinement }
    ensures mesh { (mesh : ObjMesh) (refinement : Refinement (base_level mesh)) (t : ℤ) → IsManifoldMesh mesh → HasProperTags mesh
        → IsTranslatedBy t refinement }
    ensures means { (level : Level) (refinement : Refinement level) (t : ℤ) → HasMeansInSteps level refinement.scheme refinement.steps
        → IsTranslatedBy t refinement }
{}
