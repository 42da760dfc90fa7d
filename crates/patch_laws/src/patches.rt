//! Laws of patches from level to level and at corners.

ghost use Rattle.std.specs.Prelude.{ℕ, ◌*◌, ◌<◌};
ghost use Rattle.subdiv_model.specs.Value.{IsSameValue};
ghost use Rattle.subdiv_model.specs.Leaf.{in_quad};
ghost use Rattle.limit_laws.specs.Laws.{HasLimit};
ghost use Rattle.patch_laws.specs.Laws.{HasCornerLimit, IsPlace, PatchFace, RefinedPatchFace, corner_of, corner_place, refined_on, refined_on_child, value_on, value_on_child};

/// The patch of a child has at each place the value of its parent's patch at the same point, over twice as many steps. The law holds for
/// all values of the points over denominators above 0, and for refined control numbers.
pub fn children_have_the_values_of_their_parent()
    ensures step { (face : PatchFace) (c m : ℕ) (place : ℕ × ℕ) → c < 4 → IsPlace m place → IsSameValue (value_on face (2 * m) (in_quad m c place)) (value_on_child face c m place) }
    ensures controls { (face : RefinedPatchFace) (c m : ℕ) (place : ℕ × ℕ) → c < 4 → IsPlace m place → IsSameValue (refined_on face (2 * m) (in_quad m c place)) (refined_on_child face c m place) }
{}

/// At a corner of the face the patch gives the limit point of that vertex, which has a limit mask.
pub fn corners_have_their_limits()
    ensures step { (face : PatchFace) (c m : ℕ) → c < 4 → 0 < m → HasLimit face.level face.values (corner_of face.level face.face c) (value_on face m (corner_place m c)) }
    ensures controls { (face : RefinedPatchFace) (c m : ℕ) → c < 4 → 0 < m → HasCornerLimit face c (refined_on face m (corner_place m c)) }
{}
