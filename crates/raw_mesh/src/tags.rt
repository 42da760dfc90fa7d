use sharpness_rules::{Method, Sharpness};

/// How the boundary of a mesh is refined: the three modes, by this profile's rules.
#[derive(Clone, Copy, Debug, PartialEq, Eq)]
pub enum Boundary {
    /// Boundary edges are sharp, and each face with a point on one counts as a hole.
    Hidden,
    /// Boundary edges are sharp, and so is each point of only one face.
    EdgeAndCorner,
    /// Boundary edges are sharp.
    EdgeOnly,
}

/// The sharpness of a pair of points, `a` and `b`, counted from 0.
#[derive(Clone, Copy, Debug, PartialEq, Eq)]
pub struct Crease {
    pub a: u32,
    pub b: u32,
    pub sharpness: Sharpness,
}

/// The sharpness of a point, counted from 0.
#[derive(Clone, Copy, Debug, PartialEq, Eq)]
pub struct CornerTag {
    pub vertex: u32,
    pub sharpness: Sharpness,
}

/// The tags of a mesh, in the order given.
#[derive(Drop)]
pub struct Tags {
    /// Pairs of points. A pair need not be an edge, and the last crease for an edge counts.
    pub creases: Vec<Crease>,
    /// Sharp points. The last tag for a point counts.
    pub corners: Vec<CornerTag>,
    /// The faces that are holes, counted from 0.
    pub holes: Vec<u32>,
    pub boundary: Boundary,
    /// How the sharpness of creases decays from level to level.
    pub method: Method,
}
