//! Pairs of a grid on a quad and on its children.

ghost use Rattle.std.specs.Prelude.{◌≡◌, ◌^◌, ◌≤◌, ◌<◌};
ghost use Rattle.subdiv_model.specs.Leaf.{in_child};
ghost use Rattle.leaf_laws.specs.FirstLeaf.{first_with};

/// The least corner of a quad whose child contains the pair.
pub(crate) fn first_corner(s: u64, t: u64, grid: u64) -> u32
    requires s { s ≤ grid }
    requires t { t ≤ grid }
    requires grid { grid ≤ 2 ^ 16 }
    ensures corner { result ≡ first_with grid (s, t) }
{
    if 2 * s <= grid && 2 * t <= grid {
        0
    } else if 2 * t <= grid {
        1
    } else if grid <= 2 * s {
        2
    } else {
        3
    }
}

/// The pair of a quad as a pair of the child of a corner.
pub(crate) fn pair_in_child(s: u64, t: u64, corner: u32, grid: u64) -> (u64, u64)
    requires s { s ≤ grid }
    requires t { t ≤ grid }
    requires grid { grid ≤ 2 ^ 16 }
    ensures { (result.0, result.1) ≡ in_child grid (s, t) corner }
{
    match corner {
        0 => (2 * s, 2 * t),
        1 => (2 * t, 2 * (grid - s)),
        2 => (2 * (grid - s), 2 * (grid - t)),
        _ => (2 * (grid - t), 2 * s),
    }
}
