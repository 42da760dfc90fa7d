//! Laws of points: control numbers with the values of refined points are refined to the values after them.

ghost use Rattle.std.specs.Prelude.{◌≡◌, ℕ, ◌+◌, ◌<◌, List};
ghost use Rattle.std.specs.List.{All};
ghost use Rattle.subdiv_model.specs.Level.{Level};
ghost use Rattle.subdiv_model.specs.Mask.{Scheme};
ghost use Rattle.subdiv_model.specs.Value.{Value};
ghost use Rattle.subdiv_model.specs.Refined.{child_values};
ghost use Rattle.mask_laws.specs.Laws.{IsManifoldWithSharpBoundary};
ghost use Rattle.continued_laws.specs.Laws.{AreSameValues, HasDenominator, Coordinates, Continuation, coordinates_after, continued, Columns, AreSameColumns, points_of, point_lines};

/// Equal values have equal children, whatever their terms. If numbers have the values after k steps, refining them j steps gives
/// the values after k + j steps.
pub fn values_go_on()
    ensures child { (level : Level) (scheme : Scheme) (xs ys : List Value) → AreSameValues xs ys
        → AreSameValues (child_values level scheme xs) (child_values level scheme ys) }
    ensures steps { (going : Continuation) (j : ℕ) →
        AreSameValues (coordinates_after going.first (going.steps + j)) (coordinates_after (continued going) j) }
{}

/// The refined coordinates of a manifold whose boundary is infinitely sharp have denominators of at least 1. The law asks that the
/// common denominator of the control numbers is at least 1.
pub fn refined_coordinates_have_denominators()
    ensures { (given : Coordinates) (k : ℕ) → IsManifoldWithSharpBoundary given.level → 0 < given.common
        → All HasDenominator (coordinates_after given k) }
{}

/// Points with equal coordinates have the same `v` lines in lowest terms.
pub fn same_points_have_the_same_lines()
    ensures { (first second : Columns) → AreSameColumns first second → point_lines (points_of first) ≡ point_lines (points_of second) }
{}
