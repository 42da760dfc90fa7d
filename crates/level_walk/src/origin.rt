//! Parts of level 0, and the origins of a level.

ghost use Rattle.std.specs.Prelude.{◌≡◌};
ghost use Rattle.level_walk.specs.Origins.{number_of};
ghost use Rattle.level_walk.specs.OriginsView.{seen_origin};

/// A part of level 0, by its number there, counted from 0.
#[derive(Clone, Copy, Debug, PartialEq, Eq)]
pub enum Origin {
    /// A point.
    Point(u32),
    /// The inside of an edge.
    Edge(u32),
    /// The inside of a face.
    Face(u32),
}

// Returns the number of a part of level 0.
pub(crate) fn number_of(origin: Origin) -> u32
    ensures { result ≡ number_of (seen_origin origin) }
{
    match origin {
        Origin::Point(number) | Origin::Edge(number) | Origin::Face(number) => number,
    }
}

/// The origins of a level.
#[derive(Drop)]
pub struct Origins {
    /// The part of level 0 on which each point lies.
    pub points: Vec<Origin>,
    /// The part of level 0 on which the inside of each edge lies.
    pub edges: Vec<Origin>,
    /// The face of level 0 that each face is part of, counted from 0.
    pub faces: Vec<u32>,
}
