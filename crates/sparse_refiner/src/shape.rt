//! The description of a part of the next level.

use level_topology::{FacePlace, Level};

/// A part of the next level: the places of its faces, and its points.
#[derive(Drop)]
pub struct PartShape<'a, P> {
    /// The level before.
    pub level: &'a Level,
    /// The place of each child face: a face of the level and one of its corners. The places ascend by face and corner.
    pub places: &'a [FacePlace],
    /// Which points of the whole next level the part has, and the number of each in the part.
    pub points: &'a P,
    /// For each point of the part, in the order of its own numbers, its number in the whole next level.
    pub names: &'a [u32],
}
