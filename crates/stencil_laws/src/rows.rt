//! Laws of the control points that a refined point depends on, and of their shares in it.

ghost use Rattle.std.specs.Prelude.{◌≡◌, ◌<◌, IsTrue, false, ℕ, length};
ghost use Rattle.std.specs.List.{All, sum_by};
ghost use Rattle.std.specs.List.Sorted.{IsStrictlyIncreasing};
ghost use Rattle.subdiv_model.specs.Polygons.{is_among, is_distinct};
ghost use Rattle.subdiv_model.specs.Level.{Level};
ghost use Rattle.subdiv_model.specs.Child.{refined_level};
ghost use Rattle.subdiv_model.specs.Mask.{Scheme};
ghost use Rattle.subdiv_model.specs.Value.{IsSameValue};
ghost use Rattle.subdiv_model.specs.Support.{entries_after, refined_supports};
ghost use Rattle.mask_laws.specs.Laws.{Controls, IsManifoldWithSharpBoundary};
ghost use Rattle.stencil_laws.specs.Laws.{RefinedPoint, IsInLevel, IsMadeByMeans, AgreeOnSupport, all_controls, support_of, denominator_of, share_of, value_of, value_by_shares};

/// A refined point depends on the control points of its support only: other control points can move without changing its value.
pub fn values_depend_only_on_supports()
    ensures { (point : RefinedPoint) (controls others : Controls point.level) → AgreeOnSupport point controls others
        → value_of point controls.numbers ≡ value_of point others.numbers }
{}

/// A support lists control points of level 0, each once, in ascending order.
pub fn supports_list_each_control_once()
    ensures ascending { (level : Level) (scheme : Scheme) (k : ℕ) → All IsStrictlyIncreasing (refined_supports level scheme k) }
    ensures once { (level : Level) (scheme : Scheme) (k : ℕ) → All (λ support. IsTrue (is_distinct support)) (refined_supports level scheme k) }
    ensures controls { (level : Level) (scheme : Scheme) (k : ℕ) → All (All (λ v. v < level.point_count)) (refined_supports level scheme k) }
{}

/// Each point after k steps has a support, and the number of entries of the level is the total size of these supports.
pub fn entries_are_the_sizes_of_supports()
    ensures entries { (level : Level) (scheme : Scheme) (k : ℕ) → entries_after level scheme k ≡ sum_by length (refined_supports level scheme k) }
    ensures points { (level : Level) (scheme : Scheme) (k : ℕ) → length (refined_supports level scheme k) ≡ (refined_level level k).point_count }
{}

/// The value of a refined point is the sum of shares times control numbers, over the common denominator of the point. The sum
/// over all control points and the sum over the support are the same.
pub fn shares_make_the_value()
    ensures all { (point : RefinedPoint) (controls : Controls point.level) → IsSameValue (value_of point controls.numbers)
        (value_by_shares point controls.numbers (all_controls point)) }
    ensures support { (point : RefinedPoint) (controls : Controls point.level) → IsSameValue (value_of point controls.numbers)
        (value_by_shares point controls.numbers (support_of point)) }
{}

/// A control point outside the support has share 0. If the masks of each step are means, each share in the support is above 0,
/// and the shares sum to the denominator. In a manifold whose boundary is infinitely sharp the masks are means.
pub fn shares_outside_the_support_are_none()
    ensures outside { (point : RefinedPoint) (v : ℕ) → is_among (support_of point) v ≡ false → share_of point v ≡ 0 }
    ensures inside { (point : RefinedPoint) (v : ℕ) → IsMadeByMeans point → IsTrue (is_among (support_of point) v) → 0 < share_of point v }
    ensures total { (point : RefinedPoint) → IsMadeByMeans point → IsInLevel point
        → sum_by (share_of point) (all_controls point) ≡ denominator_of point }
    ensures total_of_support { (point : RefinedPoint) → IsMadeByMeans point → IsInLevel point
        → sum_by (share_of point) (support_of point) ≡ denominator_of point }
    ensures manifold_inside { (point : RefinedPoint) (v : ℕ) → IsManifoldWithSharpBoundary point.level
        → IsTrue (is_among (support_of point) v) → 0 < share_of point v }
    ensures manifold_total_of_support { (point : RefinedPoint) → IsManifoldWithSharpBoundary point.level → IsInLevel point
        → sum_by (share_of point) (support_of point) ≡ denominator_of point }
{}
