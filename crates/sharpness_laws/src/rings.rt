//! Laws of the ring of edges at a vertex: its order does not matter.

ghost use Rattle.std.specs.Prelude.{◌≡◌, ◌<◌, ℕ, List};
ghost use Rattle.std.specs.List.Sorted.{IsPermutation};
ghost use Rattle.subdiv_model.specs.Fractions.{sum_of_fractions};
ghost use Rattle.subdiv_model.specs.Multiples.{common_denominator};
ghost use Rattle.subdiv_model.specs.Sharpness.{Sharpness, Method, sharpness_of_fraction, chaikin_value, chaikin_child_of, chaikin_overflows, half_child};
ghost use Rattle.subdiv_model.specs.Rule.{child_ring, at_most_one};
ghost use Rattle.sharpness_laws.specs.Orders.{Decrement, weight_in_transition, overflows_in_transition};
ghost use Rattle.sharpness_laws.specs.SameFraction.{IsSameFraction};

/// The sum of fractions and their common denominator do not depend on the order of the fractions.
pub fn sums_do_not_see_the_order()
    ensures sum { (values other : List (ℕ × ℕ)) → IsPermutation values other → sum_of_fractions values ≡ sum_of_fractions other }
    ensures denominator { (values other : List (ℕ × ℕ)) → IsPermutation values other
        → common_denominator values ≡ common_denominator other }
{}

/// The sharpness of the half of an edge, and whether it is refused, do not depend on the order of the edges at the vertex.
pub fn chaikin_children_do_not_see_the_order()
    ensures child { (ring other : List Sharpness) (s : Sharpness) → IsPermutation ring other
        → chaikin_child_of ring s ≡ chaikin_child_of other s }
    ensures overflow { (ring other : List Sharpness) → IsPermutation ring other → chaikin_overflows ring ≡ chaikin_overflows other }
    ensures half { (method : Method) (ring other : List Sharpness) (s : Sharpness) → IsPermutation ring other
        → half_child method ring s ≡ half_child method other s }
    ensures ring { (method : Method) (ring other : List Sharpness) → IsPermutation ring other
        → IsPermutation (child_ring method ring) (child_ring method other) }
{}

/// The weight of a transition, and whether it is refused, do not depend on the order of the edges at the vertex. Each edge keeps
/// its sharpness in this level and in the next.
pub fn transition_weights_do_not_see_the_order()
    ensures weight { (vertex : Decrement) (ring other : List Decrement) → IsPermutation ring other
        → weight_in_transition vertex ring ≡ weight_in_transition vertex other }
    ensures overflow { (vertex : Decrement) (ring other : List Decrement) → IsPermutation ring other
        → overflows_in_transition vertex ring ≡ overflows_in_transition vertex other }
{}

/// Equal fractions are the same sharpness, and give the same weight. As totals of a ring, they give the same child.
pub fn equal_fractions_are_one_sharpness()
    ensures sharpness { (x y : ℕ × ℕ) → 0 < x.1 → 0 < y.1 → IsSameFraction x y → sharpness_of_fraction x ≡ sharpness_of_fraction y }
    ensures weight { (x y : ℕ × ℕ) → 0 < x.1 → 0 < y.1 → IsSameFraction x y → at_most_one x ≡ at_most_one y }
    ensures child { (s total other : ℕ × ℕ) (count : ℕ) → IsSameFraction total other
        → IsSameFraction (chaikin_value s total count) (chaikin_value s other count) }
{}
