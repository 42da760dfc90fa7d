//! Laws of the points of the next sparse level: the masks of the sparse level give them what uniform refinement gives.

ghost use Rattle.std.specs.Prelude.{◌≡◌, ℕ, ◌<◌, ℤ, List, length, IsTrue};
ghost use Rattle.sparse_values.specs.Uniform.{SchemeRefinement, WeighsOverIn, next_point, next_points_in, sparse_denominators, sparse_mask, sparse_supports, sparse_values};
ghost use Rattle.sparse_values.specs.Uniform.{uniform_denominators, uniform_mask, uniform_supports, uniform_values, uniform_weighs_over};

/// The mask of each point of the next sparse level has the weights of the mask of the uniform point, in the same order. Its sources
/// are those of the uniform level.
pub fn masks_are_uniform()
    ensures { (given : SchemeRefinement) (i : ℕ) → i < length (next_points_in given)
        → uniform_mask given (next_point given i) ≡ sparse_mask given (next_point given i) }
{}

/// Each point of the next sparse level has the common denominator of the uniform point.
pub fn denominators_are_uniform()
    ensures { (given : SchemeRefinement) → sparse_denominators given ≡ uniform_denominators given }
{}

/// Each point of the next sparse level has the support of the uniform point.
pub fn supports_are_uniform()
    ensures { (given : SchemeRefinement) → sparse_supports given ≡ uniform_supports given }
{}

/// Each point of the next sparse level has the value of the uniform point, for all control numbers.
pub fn values_are_uniform()
    ensures { (given : SchemeRefinement) (numbers : List ℤ) → sparse_values given numbers ≡ uniform_values given numbers }
{}

/// The weight of a transition overflows at some vertex of a selected face exactly if it does at a uniform point with a present
/// child.
pub fn transitions_are_uniform()
    ensures uniform { (given : SchemeRefinement) (v : ℕ) → WeighsOverIn given v → IsTrue (uniform_weighs_over given) }
    ensures sparse { (given : SchemeRefinement) → IsTrue (uniform_weighs_over given) → (v : ℕ) × WeighsOverIn given v }
{}
