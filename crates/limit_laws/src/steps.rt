//! Laws of limit points from level to level.

ghost use Rattle.std.specs.Prelude.{ℕ, suc, ◌+◌, ◌<◌, IsTrue};
ghost use Rattle.subdiv_model.specs.Level.{Level};
ghost use Rattle.subdiv_model.specs.Child.{child_level, refined_level};
ghost use Rattle.subdiv_model.specs.Mask.{CatmullClark};
ghost use Rattle.subdiv_model.specs.Value.{IsSameValue};
ghost use Rattle.subdiv_model.specs.Refined.{child_values, refined_values};
ghost use Rattle.subdiv_model.specs.Limit.{has_quads};
ghost use Rattle.mask_laws.specs.Laws.{IsManifoldWithSharpBoundary};
ghost use Rattle.limit_laws.specs.Laws.{LimitPoint, RefinedLimitPoint, HasLimit, KeepsLimit, value_in, limit_after};

/// A limit point does not move under further steps. In a manifold of quads whose boundary is infinitely sharp, a point with a
/// limit mask has one after every number of steps.
///
/// All of these masks give the same value, for all values of the points over denominators above 0. For refined control numbers,
/// the limit values listed for the point at all these levels are equal, over denominators above 0.
pub fn further_steps_leave_limit_points()
    ensures step { (point : LimitPoint) → HasLimit (child_level point.level) (child_values point.level CatmullClark point.values) point.v
        (value_in point.level point.values point.mask) }
    ensures steps { (point : LimitPoint) (j : ℕ) → HasLimit (refined_level point.level j) (refined_values point.level CatmullClark point.values j) point.v
        (value_in point.level point.values point.mask) }
    ensures controls { (point : RefinedLimitPoint) (j : ℕ) → KeepsLimit point j }
    ensures listed { (point : RefinedLimitPoint) (j : ℕ)
        → IsSameValue (limit_after point.base point.controls point.k point.v) (limit_after point.base point.controls (point.k + j) point.v) }
    ensures above_zero { (point : RefinedLimitPoint) (j : ℕ) → 0 < (limit_after point.base point.controls (point.k + j) point.v).den }
{}

/// Every level after level 0 has only quads.
pub fn next_levels_have_quads()
    ensures next { (level : Level) → IsTrue (has_quads (child_level level)) }
    ensures later { (level : Level) (k : ℕ) → IsTrue (has_quads (refined_level level (suc k))) }
{}

/// Every later level of a well-formed manifold whose boundary is infinitely sharp is again one.
pub fn manifolds_keep_a_sharp_boundary()
    ensures { (level : Level) (k : ℕ) → IsManifoldWithSharpBoundary level → IsManifoldWithSharpBoundary (refined_level level k) }
{}
