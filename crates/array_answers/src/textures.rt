//! The texture of a mesh in arrays at a depth.

ghost use Rattle.std.specs.Prelude.{◌≡◌, ◌<◌, ◌≤◌, Some, Err, IsOkAnd, MatchResult};
ghost use Rattle.far_words.specs.View.{uv_of_code};
ghost use Rattle.mesh_answers.specs.Textures.{IsTextureWith};
ghost use Rattle.array_answers.specs.Asked.{TextureRows};
ghost use Rattle.array_answers.specs.Rows.{AreRowsRefused, IsArrayTexture, IsRequestRefused, IsTextureFound};

use crate::record::FaultRecord;
use crate::record_table::record_of;
use crate::refused::{bad_request, record_of_arrays};
use crate::request::uv_asked;
use far_words::Uv;
use mesh_answers::{ComposedTexture, compose_texture};
use mesh_arrays::{MeshArrays, mesh_of_arrays};
use ratio128::Steps;
use raw_mesh::RawMesh;
use std::alloc::Global;
use std::marker::Brand;
use std::sync::ledger::{Blank, Ledger};

/// A level of a mesh's cut mesh, with the table of its texture points and the values of the points of the cut mesh.
#[derive(Drop)]
pub struct TextureArrays {
    /// The level, its table and the values.
    pub texture: ComposedTexture,
    /// The common denominator of the values.
    pub common: u128,
}

/// The texture of a mesh at a depth, or the record of its fault.
pub(crate) fn texture_of_mesh<L: Ledger>(
    alloc: Global,
    mesh: &RawMesh,
    uv: Uv,
    depth: u32,
    steps: &mut Steps<L>,
) -> Result<ComposedTexture, FaultRecord>
    requires { depth ≤ 10 }
    ensures { MatchResult result
        (IsTextureWith (uv_of_code uv) depth mesh.now)
        (AreRowsRefused (TextureRows (uv_of_code uv) depth) mesh.now) }
{
    match compose_texture(alloc, mesh, uv, depth, steps) {
        Ok(Some(texture)) => Ok(texture),
        Ok(None) => Err(bad_request()),
        Err(fault) => Err(record_of(&fault)),
    }
}

// A texture with the common denominator of its values, or the fault.
fn with_common(
    mesh: &RawMesh,
    texture: Result<ComposedTexture, FaultRecord>,
) -> Result<TextureArrays, FaultRecord>
    ensures { MatchResult texture
        (λ texture. IsOkAnd result (λ found. found ≡ record { texture = texture; common = mesh.now.texture_common }))
        (λ fault. result ≡ Err fault) }
{
    let common = mesh.texture_scale();
    texture.map(|texture| TextureArrays { texture, common })
}

// The texture of a mesh in arrays, with a new counter of steps.
fn texture_counted<L: Ledger>(
    alloc: Global,
    blank: Blank,
    arrays: &MeshArrays,
    uv: Uv,
    depth: u32,
) -> Result<TextureArrays, FaultRecord>
    requires name { blank.name ≡ L.name }
    requires parts { blank.parts ≡ L.parts }
    requires some { 0 < blank.parts }
    requires depth { depth ≤ 10 }
    ensures { MatchResult result
        (IsArrayTexture (uv_of_code uv) depth arrays.now)
        (IsRequestRefused (Some (TextureRows (uv_of_code uv) depth)) arrays.now) }
{
    match mesh_of_arrays(alloc, arrays) {
        Ok(mesh) => {
            let mut steps = Steps::start(blank.open::<L>());
            let texture = texture_of_mesh(alloc, &mesh, uv, depth, &mut steps);
            with_common(&mesh, texture)
        }
        Err(fault) => Err(record_of_arrays(&fault)),
    }
}

/// Returns the level of the arrays' cut mesh at `depth`, at most 10, with the table of its texture points. The control points of the
/// table are the points of the cut mesh; the call returns their values too. `seams` chooses what stays sharp: 0 nothing, 1 the corners of
/// charts, 2 their whole boundaries, 3 every point, by linear refinement.
///
/// The record is that of the first fault; `Memory` may come at any time:
///
/// - `BAD_ARGUMENT` for a depth above 10 or `seams` above 3;
/// - a fault of the arrays;
/// - a fault of `compose_texture` of `mesh_answers`, in its order;
/// - `BAD_ARGUMENT` for a mesh without texture.
pub fn texture_of_arrays(
    alloc: Global,
    arrays: &MeshArrays,
    seams: u32,
    depth: u32,
) -> Result<TextureArrays, FaultRecord>
    ensures { IsTextureFound seams depth arrays.now result }
{
    match uv_asked(seams, depth) {
        Some(uv) => texture_counted::<Brand>(alloc, Blank::new(1), arrays, uv, depth),
        None => Err(bad_request()),
    }
}
