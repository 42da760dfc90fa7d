//! The leaf of a place.

/// A leaf and a place on it. A leaf is a face of a sparse level that is not refined further.
#[derive(Clone, Copy, Debug, PartialEq, Eq)]
pub struct Leaf {
    /// The level of the leaf, counted from 0.
    pub level: u32,
    /// The number of the leaf in the uniform level, counted from 0.
    pub number: u64,
    /// For a leaf of level 0 that is not a quad: the corner, counted from 0, whose child face contains the place. Else 0.
    pub corner: u32,
    /// The distance of the place from corner 0 towards corner 1, in steps of the grid.
    pub s: u64,
    /// The distance of the place from corner 0 towards corner 3, in steps of the grid.
    pub t: u64,
}
