//! The descent from a face to its leaf.

ghost use Rattle.std.specs.Prelude.{◌≡◌, ◌+◌, ◌^◌, ◌≤◌, ◌<◌};
ghost use Rattle.leaf_laws.specs.FirstLeaf.{IsInGrid};
ghost use Rattle.patch_map.specs.View.{location_of};
ghost use Rattle.patch_map.specs.Found.{corner_in, pair_in, face_at, leaf_below};

use crate::leaf::Leaf;
use crate::level::MapLevel;
use crate::pairs::{first_corner, pair_in_child};

// The corner whose child contains the place.
fn corner_of(is_quad: bool, at: &Leaf, grid: u64) -> u32
    requires inside { IsInGrid grid (location_of at.now) }
    requires grid { grid ≤ 2 ^ 16 }
    ensures { result ≡ corner_in grid is_quad (location_of at.now) }
{
    if is_quad {
        first_corner(at.s, at.t, grid)
    } else {
        at.corner
    }
}

// The place within that child.
fn pair_of(is_quad: bool, at: &Leaf, grid: u64) -> (u64, u64)
    requires inside { IsInGrid grid (location_of at.now) }
    requires grid { grid ≤ 2 ^ 16 }
    ensures pair { (result.0, result.1) ≡ pair_in grid is_quad (location_of at.now) }
    ensures s { result.0 ≤ grid }
    ensures t { result.1 ≤ grid }
{
    if is_quad {
        pair_in_child(at.s, at.t, first_corner(at.s, at.t, grid), grid)
    } else {
        (at.s, at.t)
    }
}

// The place of the child of a corner in the list of faces, given that of the first child.
fn child_place(first: u32, corner: u32) -> u64
    ensures { result ≡ first + corner }
{
    u64::from(first) + u64::from(corner)
}

// A pair on the face at a place of a level.
fn leaf_at(level: &MapLevel, place: u64, pair: (u64, u64)) -> Leaf
    ensures { location_of result ≡ face_at level.now place (pair.0, pair.1) }
{
    Leaf {
        level: level.depth(),
        number: level.number(place),
        corner: 0,
        s: pair.0,
        t: pair.1,
    }
}

/// The leaf of a place on a face. The face is in the level before the first of `levels`.
pub(crate) fn leaf_below(
    levels: &[MapLevel],
    is_quad: bool,
    start: u64,
    at: Leaf,
    grid: u64,
) -> Leaf
    requires inside { IsInGrid grid (location_of at) }
    requires grid { grid ≤ 2 ^ 16 }
    ensures { location_of result ≡ leaf_below grid levels.now is_quad start (location_of at) }
{
    let mut rest = levels;
    let (mut leaf, mut quad, mut place) = (at, is_quad, start);
    while let [level, others @ ..] = rest {
        let Some(first) = level.first(place) else {
            return leaf;
        };
        place = child_place(first, corner_of(quad, &leaf, grid));
        leaf = leaf_at(level, place, pair_of(quad, &leaf, grid));
        quad = true;
        rest = others;
    }
    leaf
}
