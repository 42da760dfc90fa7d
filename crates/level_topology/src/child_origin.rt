//! The origins of the points and faces of a child.

/// The part of the parent that a point comes from, with its number there.
#[derive(Clone, Copy, Debug, PartialEq, Eq)]
pub enum Origin {
    Vertex(u32),
    Face(u32),
    Edge(u32),
}

/// A corner of a face of the parent. `corner` is its place among the corners of `face`.
#[derive(Clone, Copy, Debug, PartialEq, Eq)]
pub struct FacePlace {
    pub face: u32,
    pub corner: u32,
}
