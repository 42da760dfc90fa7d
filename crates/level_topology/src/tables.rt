//! The six incidence tables of a level, packed.
//!
//! A large level of quads has twice as many edges as faces, and as many points as faces. Its tables take 138 bytes for each face:
//!
//! - faces: 36 for corners and edges with their starts, 1 for the marks of holes;
//! - edges: 16 for ends, 16 for faces, 8 for the codes of sharpness;
//! - points: 28 for faces and 28 for edges, each with places and starts, 4 for the codes of sharpness, 1 for marks.
//!
//! Each edge or point that is not smooth takes 24 bytes more.

ghost use Rattle.std.specs.Prelude.{◌≡◌, ◌≤◌, [], IfOk};
ghost use Rattle.std.specs.Vec.{vec_capacity};
ghost use Rattle.level_topology.specs.Packed.{paired};
ghost use Rattle.level_topology.specs.Coded.{kept};

use crate::packed_lists::PackedLists;
use crate::sharpness_list::SharpnessList;
use ratio128::Memory;
use sharpness_rules::Method;
use std::alloc::Global;

/// The tables of a level. An edge with one face has the number of that face twice in `edge_faces`.
#[derive(Drop)]
pub struct LevelTables {
    /// The corners of each face, beside its edges.
    pub faces: PackedLists<u32>,
    /// Whether each face is a hole.
    pub holes: Vec<bool>,
    /// The ends of each edge, in the direction in which a face first names it.
    pub edge_vertices: Vec<(u32, u32)>,
    /// The first and the last face of each edge.
    pub edge_faces: Vec<(u32, u32)>,
    /// The sharpness of each edge.
    pub edge_sharpness: SharpnessList,
    /// The faces at each point, beside its corner of each.
    pub vertex_faces: PackedLists<u16>,
    /// The edges at each point, beside its end of each.
    pub vertex_edges: PackedLists<u16>,
    /// The sharpness of each point.
    pub vertex_sharpness: SharpnessList,
    /// Whether the lists at each point are in fan order.
    pub complete: Vec<bool>,
    /// The method that gives the halves of an edge their sharpness at the next level.
    pub method: Method,
}

// Room for faces, for their corners in all, and for the marks of holes.
pub(crate) fn face_tables(
    alloc: Global,
    faces: u32,
    corners: u32,
) -> Result<(PackedLists<u32>, Vec<bool>), Memory>
    ensures faces { IfOk result (λ made. made.0 ≡ paired [] [] faces corners) }
    ensures holes { IfOk result (λ made. made.1.items ≡ []) }
    ensures room { IfOk result (λ made. faces ≤ vec_capacity made.1) }
{
    let holes = Vec::with_capacity(alloc, faces as usize)?;
    Ok((PackedLists::with_limits(alloc, faces, corners)?, holes))
}

// Room for the ends, the faces and the sharpness of edges.
pub(crate) fn edge_tables(
    alloc: Global,
    edges: u32,
) -> Result<(Vec<(u32, u32)>, Vec<(u32, u32)>, SharpnessList), Memory>
    ensures ends { IfOk result (λ made. made.0.items ≡ []) }
    ensures faces { IfOk result (λ made. made.1.items ≡ []) }
    ensures sharpness { IfOk result (λ made. made.2 ≡ kept [] edges) }
    ensures end_capacity { IfOk result (λ made. edges ≤ vec_capacity made.0) }
    ensures face_capacity { IfOk result (λ made. edges ≤ vec_capacity made.1) }
{
    let ends = Vec::with_capacity(alloc, edges as usize)?;
    let faces = Vec::with_capacity(alloc, edges as usize)?;
    Ok((ends, faces, SharpnessList::with_limit(alloc, edges)?))
}

// Room for the sharpness and the marks of points.
pub(crate) fn mark_tables(alloc: Global, points: u32) -> Result<(SharpnessList, Vec<bool>), Memory>
    ensures sharpness { IfOk result (λ made. made.0 ≡ kept [] points) }
    ensures marks { IfOk result (λ made. made.1.items ≡ []) }
    ensures room { IfOk result (λ made. points ≤ vec_capacity made.1) }
{
    let complete = Vec::with_capacity(alloc, points as usize)?;
    Ok((SharpnessList::with_limit(alloc, points)?, complete))
}
