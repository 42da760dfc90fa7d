//! Laws of places, as pairs of steps, on a quad and on its children.

ghost use Rattle.std.specs.Prelude.{◌≡◌, ℕ, ◌*◌, ◌≤◌, true};
ghost use Rattle.leaf_laws.specs.FirstLeaf.{ChildPair};
ghost use Rattle.subdiv_model.specs.Leaf.{in_quad, in_child, has_pair};

/// A child of a quad contains a pair of the quad exactly where some pair of the child lies there. The pair that the definition
/// finds in the child is that pair, and lies on the grid.
pub fn children_have_their_pairs()
    ensures place { (grid c s t : ℕ) → s ≤ grid → t ≤ grid → has_pair grid (s, t) c ≡ true → in_quad grid c (in_child grid (s, t) c) ≡ (2 * s, 2 * t) }
    ensures inside { (grid c s t : ℕ) → s ≤ grid → t ≤ grid → has_pair grid (s, t) c ≡ true
        → ((in_child grid (s, t) c).0 ≤ grid) × ((in_child grid (s, t) c).1 ≤ grid) }
    ensures only { (grid c s t : ℕ) (at : ChildPair grid c s t) → s ≤ grid → t ≤ grid → (has_pair grid (s, t) c ≡ true) × (in_child grid (s, t) c ≡ (at.pair.0, at.pair.1)) }
{}
