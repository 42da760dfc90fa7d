//! Laws of masks: the order of edges, faces and corners and the direction of an edge do not matter; masks of equal weights agree.

ghost use Rattle.std.specs.Prelude.{◌≡◌, ◌*◌, ℕ, List};
ghost use Rattle.std.specs.List.{sum_by};
ghost use Rattle.std.specs.List.Sorted.{IsPermutation};
ghost use Rattle.subdiv_model.specs.Polygons.{Polygon};
ghost use Rattle.subdiv_model.specs.Sharpness.{Sharpness, Method};
ghost use Rattle.subdiv_model.specs.Level.{Level};
ghost use Rattle.subdiv_model.specs.Mask.{SourcePoint, Term, Mask, CatmullClark, total_weight, mask_of, mask_of_vertex, mask_of_edge, mask_of_corners, vertex_mask};
ghost use Rattle.subdiv_model.specs.Value.{Value};
ghost use Rattle.subdiv_model.specs.Refined.{mask_value, mask_denominator};
ghost use Rattle.sharpness_laws.specs.Orders.{Decrement, OrderAt, IgnoresOrder, has_one_mask, mask_by_rule, mask_in_transition, mask_by_method, mask_in_order};
ghost use Rattle.sharpness_laws.specs.SameWeights.{HaveSameWeights, IsJoined};

/// The mask of a vertex by its rule has the same weights in every order of its edges and faces. Each edge keeps its other end and
/// its sharpness.
pub fn vertex_rules_follow_the_order()
    ensures { (vertex : Sharpness) (v : ℕ) → IgnoresOrder (mask_by_rule vertex v) }
{}

/// The mask of a vertex between two levels has the same weights in every order of its edges and faces. Each edge keeps its other
/// end, its sharpness and its sharpness in the next level. Whether the two rules name one mask does not depend on the order.
pub fn vertex_masks_do_not_see_the_order()
    ensures same_mask { (vertex : Decrement) (ring other : List Decrement) → IsPermutation ring other
        → has_one_mask vertex ring ≡ has_one_mask vertex other }
    ensures mask { (vertex : Decrement) (v : ℕ) → IgnoresOrder (mask_in_transition vertex v) }
    ensures ring { (method : Method) (vertex : Decrement) (v : ℕ) → IgnoresOrder (mask_by_method method vertex v) }
    ensures level { (level : Level) (v : ℕ) (order : OrderAt level v)
        → HaveSameWeights (vertex_mask level CatmullClark v) (mask_in_order level v order.edges order.faces) }
{}

/// The mask of an edge has the same weights in both directions of the edge and in every order of its faces.
pub fn edge_masks_do_not_see_the_direction()
    ensures { (s : Sharpness) (a b : ℕ) (faces others : List ℕ) → IsPermutation faces others
        → HaveSameWeights (mask_of_edge s (a, b) faces) (mask_of_edge s (b, a) others) }
{}

/// The mask of a face has the same weights in every order of its corners.
pub fn face_masks_do_not_see_the_order()
    ensures { (corners other : Polygon) → IsPermutation corners other
        → HaveSameWeights (mask_of_corners corners) (mask_of_corners other) }
{}

/// Masks with the same weights have the same sum of weights, and the same sum of weights times numbers.
pub fn same_weights_have_one_sum()
    ensures total { (m n : Mask) → HaveSameWeights m n → total_weight m.terms ≡ total_weight n.terms }
    ensures sum { (m n : Mask) (f : SourcePoint → ℕ) → HaveSameWeights m n
        → sum_by (λ t. t.weight * f t.source) m.terms ≡ sum_by (λ t. t.weight * f t.source) n.terms }
{}

/// Each mask lists each source once, with a weight above 0.
pub fn masks_are_joined()
    ensures mask_of { (terms : List Term) (denominator : ℕ) → IsJoined (mask_of terms denominator) }
    ensures corners { (corners : Polygon) → IsJoined (mask_of_corners corners) }
    ensures edge { (s : Sharpness) (edge : ℕ × ℕ) (faces : List ℕ) → IsJoined (mask_of_edge s edge faces) }
    ensures vertex { (vertex vertex_child : Sharpness) (ring ring_child : List Sharpness) (v : ℕ) (ends faces : List ℕ)
        → IsJoined (mask_of_vertex vertex vertex_child ring ring_child v ends faces) }
{}

/// Two joined masks with the same weights have the same terms up to order. They have the same value, unreduced, for all values of
/// the sources, and the same common denominator.
pub fn same_weights_have_one_value()
    ensures terms { (m n : Mask) → IsJoined m → IsJoined n → HaveSameWeights m n → IsPermutation m.terms n.terms }
    ensures value { (m n : Mask) (value : SourcePoint → Value) → IsJoined m → IsJoined n → HaveSameWeights m n
        → mask_value value m ≡ mask_value value n }
    ensures denominator { (m n : Mask) (denominator : SourcePoint → ℕ) → IsJoined m → IsJoined n → HaveSameWeights m n
        → mask_denominator denominator m ≡ mask_denominator denominator n }
{}
