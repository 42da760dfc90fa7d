//! Laws of the leaves of a location.

ghost use Rattle.std.specs.Prelude.{◌≡◌, ◌<◌, length};
ghost use Rattle.leaf_laws.specs.FirstLeaf.{LeafSearch, StartsInGrid, first_leaf_in, leaf_in, leaves_in};

/// Each location of the grid has a leaf.
pub fn locations_have_leaves()
    ensures { (search : LeafSearch) → StartsInGrid search → 0 < length (leaves_in search) }
{}

/// The leaf of a location is found level by level: each step goes to the least corner whose child face has the location.
pub fn leaves_are_first()
    ensures { (search : LeafSearch) → StartsInGrid search → leaf_in search ≡ first_leaf_in search }
{}
