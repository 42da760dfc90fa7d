//! Laws of leaves by their paths from level 0.

ghost use Rattle.std.specs.Prelude.{◌≡◌, ◌≢◌};
ghost use Rattle.leaf_laws.specs.FirstLeaf.{LeafSearch, StartsInGrid, leaf_in};
ghost use Rattle.leaf_laws.specs.Paths.{IsLeastLeaf, ShareBorders, TwoLeaves};

/// A path leads to at most one leaf.
pub fn paths_have_one_leaf()
    ensures { (search : LeafSearch) (two : TwoLeaves search) → two.path ≡ two.other_path → two.leaf ≡ two.other }
{}

/// Among the leaves that contain a location, its leaf is the one with the least path.
pub fn leaves_have_the_least_paths()
    ensures { (search : LeafSearch) → StartsInGrid search → IsLeastLeaf search (leaf_in search) }
{}

/// If leaves on two different paths contain a location, the location is on the border of both leaves.
pub fn leaves_share_only_borders()
    ensures { (search : LeafSearch) (two : TwoLeaves search) → StartsInGrid search → two.path ≢ two.other_path → ShareBorders two }
{}
