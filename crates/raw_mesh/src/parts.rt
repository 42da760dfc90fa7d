//! Meshes made from plain arrays.

ghost use Rattle.std.specs.Prelude.{◌≡◌, ◌+◌, ◌<◌, ◌^◌, length, sum, None, IfOk, MatchResult};
ghost use Rattle.raw_mesh.specs.Parts.{bad_part, mesh_of_parts, IsPartsFault};
ghost use Rattle.raw_mesh.specs.Starts.{starts_from};

use crate::bad_part::first_bad_part;
use crate::fault::PartsFault;
use crate::mesh::{Coordinates, Faces, RawMesh};
use crate::tags::Tags;
use std::alloc::{AllocError, Global};

/// The parts of a mesh in plain arrays. Points, texture values and faces are counted from 0.
#[derive(Drop)]
pub struct MeshParts {
    pub coordinates: Coordinates,
    /// How many corners each face has.
    pub face_sizes: Vec<u32>,
    /// The points of the corners of all faces, face after face.
    pub corners: Vec<u32>,
    /// The texture values of these corners; empty if the mesh has no texture.
    pub texture_corners: Vec<u32>,
    pub tags: Tags,
}

// Where each face of these sizes begins, then where the last one ends.
fn starts_of(alloc: Global, sizes: &[u32]) -> Result<Vec<u32>, AllocError>
    requires { sum sizes.now < 2 ^ 27 }
    ensures { IfOk result (λ starts. starts.items ≡ starts_from 0 sizes.now) }
{
    let mut starts = Vec::with_capacity(alloc, sizes.len() + 1)?;
    let mut place = 0;
    for size in sizes {
        starts.push(place)?;
        place += *size;
    }
    starts.push(place)?;
    Ok(starts)
}

// The mesh of parts without a fault.
fn mesh_of_good(alloc: Global, parts: MeshParts) -> Result<RawMesh, AllocError>
    requires { bad_part parts ≡ None }
    ensures { IfOk result (λ mesh. mesh ≡ mesh_of_parts parts) }
{
    let starts = starts_of(alloc, &parts.face_sizes)?;
    let faces = Faces {
        starts,
        corners: parts.corners,
        texture_corners: parts.texture_corners,
    };
    Ok(RawMesh::of(parts.coordinates, faces, parts.tags))
}

impl RawMesh {
    /// Returns the mesh of these parts. It has texture if there is a face and a texture corner for each corner.
    ///
    /// - `Bad`: the first part at fault, in the order of the variants of [`BadPart`], and within one kind at the least place.
    /// - `Memory`: memory ran out. Only the array of the starts of faces takes memory.
    ///
    /// After an error the parts are dropped.
    ///
    /// [`BadPart`]: crate::BadPart
    pub fn from_parts(alloc: Global, parts: MeshParts) -> Result<RawMesh, PartsFault>
        ensures { MatchResult result (λ mesh. (bad_part parts ≡ None) × (mesh ≡ mesh_of_parts parts))
            (λ fault. IsPartsFault fault (bad_part parts)) }
    {
        if let Some(bad) = first_bad_part(&parts) {
            return Err(PartsFault::Bad(bad));
        }
        Ok(mesh_of_good(alloc, parts)?)
    }
}
