//! Places for the arrays of a mesh.

use crate::arrays::{SharpEdge, SharpPoint, WidePoint, WideValue};
use flat_arrays::Wide;

/// How many items each array of a mesh has.
#[repr(C)]
#[derive(Clone, Copy, Debug, PartialEq, Eq)]
pub struct MeshCounts {
    pub points: u64,
    pub texture: u64,
    pub faces: u64,
    /// The corners of all faces.
    pub corners: u64,
    /// As many as corners if the mesh has texture, and 0 otherwise.
    pub texture_corners: u64,
    pub creases: u64,
    pub corner_tags: u64,
    pub holes: u64,
}

/// The common denominators, the boundary mode and the method of a mesh, as in `MeshArrays`.
#[repr(C)]
#[derive(Clone, Copy, Debug, PartialEq, Eq)]
pub struct MeshOptions {
    pub scale: Wide,
    pub texture_scale: Wide,
    pub boundary: u32,
    pub method: u32,
}

/// Arrays of a caller that receive a mesh. `MeshArrays` describes their contents.
#[repr(C)]
#[derive(Drop)]
pub struct MeshPlaces<'a> {
    pub points: &'a mut [WidePoint],
    pub texture: &'a mut [WideValue],
    pub face_sizes: &'a mut [u32],
    pub corners: &'a mut [u32],
    pub texture_corners: &'a mut [u32],
    pub creases: &'a mut [SharpEdge],
    pub corner_tags: &'a mut [SharpPoint],
    pub holes: &'a mut [u32],
}
