//! The parts of numbered faces.

use level_topology::PackedLists;
use sharpness_rules::{Method, Sharpness};

/// The faces of a level with their numbered edges, as plain tables. Points, faces and edges are counted from 0.
#[derive(Drop)]
pub struct FaceParts {
    /// The corners of each face, beside the numbers of its edges.
    pub faces: PackedLists<u32>,
    /// Whether each face is a hole.
    pub holes: Vec<bool>,
    /// The ends of each edge, in the direction in which a face first names it.
    pub edge_ends: Vec<(u32, u32)>,
    /// The first and the last face of each edge. An edge with one face has the number of that face twice.
    pub edge_faces: Vec<(u32, u32)>,
    /// The sharpness of each edge.
    pub edge_sharpness: Vec<Sharpness>,
    /// The sharpness of each point.
    pub vertex_sharpness: Vec<Sharpness>,
    /// Whether each point is complete: its faces form one fan, or it has none.
    pub complete: Vec<bool>,
    /// The method that gives the halves of an edge their sharpness at the next level.
    pub method: Method,
}
