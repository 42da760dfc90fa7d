//! The rows of a mesh in arrays.

ghost use Rattle.std.specs.Prelude.{◌≡◌, ◌<◌, ◌≤◌, Some, MatchResult};
ghost use Rattle.far_words.specs.View.{patch_of_code, uv_of_code};
ghost use Rattle.array_answers.specs.Asked.{AreInRange, LimitPointRows, PatchRows, PointRows, TextureRows};
ghost use Rattle.array_answers.specs.Rows.{AreArrayRows, AreRowsComposed, AreRowsFound, IsRequestRefused};
ghost use Rattle.array_answers.specs.View.{rows_of_code};

use crate::record::FaultRecord;
use crate::record_table::record_of;
use crate::refused::{bad_request, record_of_arrays};
use crate::request::{AskedRows, RowRequest, asked_rows};
use crate::textures::texture_of_mesh;
use channel_refine::ComposedChannel;
use far_words::{PatchOptions, Uv};
use mesh_answers::{ComposedTexture, compose, compose_limits, compose_patch};
use mesh_arrays::{MeshArrays, mesh_of_arrays};
use ratio128::Steps;
use raw_mesh::RawMesh;
use std::alloc::Global;
use std::marker::Brand;
use std::sync::ledger::{Blank, Ledger};
use stencil_apply::StencilTable;

// The table of a level. The function drops the level.
fn table_of(composed: ComposedChannel) -> StencilTable
    ensures { result ≡ composed.table }
{
    // The prover proves a named drop once for each type.
    drop(composed.level);
    composed.table
}

// The table of a texture. The function drops the level and the values.
fn table_of_texture(texture: ComposedTexture) -> StencilTable
    ensures { result ≡ texture.table }
{
    // The prover proves a named drop once for each type.
    drop(texture.level);
    drop(texture.values);
    texture.table
}

// The rows of the points of a level.
fn point_rows<L: Ledger>(
    alloc: Global,
    mesh: &RawMesh,
    depth: u32,
    steps: &mut Steps<L>,
) -> Result<StencilTable, FaultRecord>
    requires { depth ≤ 10 }
    ensures { AreRowsComposed (PointRows depth) mesh.now result }
{
    match compose(alloc, mesh, depth, steps) {
        Ok(composed) => Ok(table_of(composed)),
        Err(fault) => Err(record_of(&fault)),
    }
}

// The rows of the limit points of a level.
fn limit_rows<L: Ledger>(
    alloc: Global,
    mesh: &RawMesh,
    depth: u32,
    steps: &mut Steps<L>,
) -> Result<StencilTable, FaultRecord>
    requires at_least { 1 ≤ depth }
    requires at_most { depth ≤ 10 }
    ensures { AreRowsComposed (LimitPointRows depth) mesh.now result }
{
    match compose_limits(alloc, mesh, depth, steps) {
        Ok(limits) => Ok(table_of(limits)),
        Err(fault) => Err(record_of(&fault)),
    }
}

// The rows of the patch of a face.
fn patch_rows<L: Ledger>(
    alloc: Global,
    mesh: &RawMesh,
    options: &PatchOptions,
    steps: &mut Steps<L>,
) -> Result<StencilTable, FaultRecord>
    requires { AreInRange (PatchRows (patch_of_code options.now)) }
    ensures { AreRowsComposed (PatchRows (patch_of_code options.now)) mesh.now result }
{
    match compose_patch(alloc, mesh, options, steps) {
        Ok(rows) => Ok(rows),
        Err(fault) => Err(record_of(&fault)),
    }
}

// The rows of the texture points of a level.
fn texture_rows<L: Ledger>(
    alloc: Global,
    mesh: &RawMesh,
    uv: Uv,
    depth: u32,
    steps: &mut Steps<L>,
) -> Result<StencilTable, FaultRecord>
    requires { depth ≤ 10 }
    ensures { AreRowsComposed (TextureRows (uv_of_code uv) depth) mesh.now result }
{
    match texture_of_mesh(alloc, mesh, uv, depth, steps) {
        Ok(texture) => Ok(table_of_texture(texture)),
        Err(found) => Err(found),
    }
}

// The requested rows of a mesh.
fn rows_of_mesh<L: Ledger>(
    alloc: Global,
    mesh: &RawMesh,
    rows: &AskedRows,
    steps: &mut Steps<L>,
) -> Result<StencilTable, FaultRecord>
    requires { AreInRange (rows_of_code rows.now) }
    ensures { AreRowsComposed (rows_of_code rows.now) mesh.now result }
{
    match *rows {
        AskedRows::Points { depth } => point_rows(alloc, mesh, depth, steps),
        AskedRows::Limits { depth } => limit_rows(alloc, mesh, depth, steps),
        AskedRows::Patch(options) => patch_rows(alloc, mesh, &options, steps),
        AskedRows::Texture { uv, depth } => texture_rows(alloc, mesh, uv, depth, steps),
    }
}

// The rows of a mesh in arrays, with a new counter of steps.
fn rows_counted<L: Ledger>(
    alloc: Global,
    blank: Blank,
    arrays: &MeshArrays,
    rows: &AskedRows,
) -> Result<StencilTable, FaultRecord>
    requires name { blank.name ≡ L.name }
    requires parts { blank.parts ≡ L.parts }
    requires some { 0 < blank.parts }
    requires range { AreInRange (rows_of_code rows.now) }
    ensures { MatchResult result
        (AreArrayRows (rows_of_code rows.now) arrays.now)
        (IsRequestRefused (Some (rows_of_code rows.now)) arrays.now) }
{
    match mesh_of_arrays(alloc, arrays) {
        Ok(mesh) => {
            let mut steps = Steps::start(blank.open::<L>());
            rows_of_mesh(alloc, &mesh, rows, &mut steps)
        }
        Err(fault) => Err(record_of_arrays(&fault)),
    }
}

/// Returns the table of the requested rows of the mesh of the arrays. Its control points are the points of the mesh, or for texture
/// points those of the cut mesh.
///
/// The record is that of the first fault; `Memory` may come at any time:
///
/// - `BAD_ARGUMENT` for a number of the request out of its range;
/// - a fault of the arrays;
/// - a fault of the command `stencils`, `limit` or `patch`, in its order, or of `compose_texture` of `mesh_answers`;
/// - `BAD_ARGUMENT` for the texture of a mesh without one.
pub fn rows_of_arrays(
    alloc: Global,
    arrays: &MeshArrays,
    request: &RowRequest,
) -> Result<StencilTable, FaultRecord>
    ensures { AreRowsFound request.now arrays.now result }
{
    match asked_rows(request) {
        Some(rows) => rows_counted::<Brand>(alloc, Blank::new(1), arrays, &rows),
        None => Err(bad_request()),
    }
}
