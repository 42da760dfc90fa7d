//! The table of the texture of a mesh at a depth.

ghost use Rattle.std.specs.Prelude.{◌≡◌, ◌+◌, ◌≤◌, true, length, Err, IsOkAnd, MatchResult};
ghost use Rattle.far_model.specs.Answer.{texture_of};
ghost use Rattle.far_fault.specs.View.{fault_of};
ghost use Rattle.far_words.specs.View.{uv_of_code};
ghost use Rattle.ratio128.specs.StepsTaken.{StepsTaken};
ghost use Rattle.mesh_answers.specs.Levels.{IsFoundWithin, IsSmallManifold};
ghost use Rattle.mesh_answers.specs.Refusals.{IsFound};
ghost use Rattle.mesh_answers.specs.StepCounts.{later_faces, level_faces_to, where_textured};
ghost use Rattle.mesh_answers.specs.Textures.{IsTextureBase, IsTextureComposition, IsTextureTable, texture_refusal};

use crate::level::level_within;
use crate::tracks::{BaseTexture, cut_texture};
use channel_refine::{BaseChannel, ComposedChannel, compose_channel};
use far_fault::{FarFault, Track, fault_of_walk};
use far_words::Uv;
use level_topology::Level;
use ratio128::{Point2, Steps};
use raw_mesh::RawMesh;
use std::alloc::Global;
use std::sync::ledger::Ledger;
use stencil_apply::StencilTable;

/// A level of a mesh's cut mesh, with the table of its texture points.
#[derive(Drop)]
pub struct ComposedTexture {
    /// The level of the cut mesh.
    pub level: Level,
    /// The rows of the level's points over the points of the cut mesh.
    pub table: StencilTable,
    /// The numerators of the points of the cut mesh, over the common denominator of the texture.
    pub values: Vec<Point2>,
}

// The channel of the texture, if the mesh has texture. No level up to the depth has too many faces.
fn texture_base<L: Ledger>(
    alloc: Global,
    mesh: &RawMesh,
    uv: Uv,
    depth: u32,
    steps: &mut Steps<L>,
) -> Result<Option<BaseTexture>, FarFault>
    ensures base { MatchResult result (IsTextureBase (uv_of_code uv) depth mesh.now) (λ fault. IsFoundWithin depth mesh.now (fault_of fault)) }
    ensures steps { StepsTaken result steps.old steps.new 0 (length mesh.now.faces + where_textured mesh.now (length mesh.now.faces)) }
{
    let level = level_within(alloc, mesh, depth, steps)?;
    let texture = cut_texture(alloc, mesh, &level, uv, steps);
    // The prover proves a named drop once for each type.
    drop(level);
    Ok(texture?)
}

// The table of a texture at a depth, from its channel.
fn table_of_texture<L: Ledger>(
    alloc: Global,
    mesh: &RawMesh,
    uv: Uv,
    base: BaseChannel,
    depth: u32,
    steps: &mut Steps<L>,
) -> Result<ComposedChannel, FarFault>
    requires depth { depth ≤ 10 }
    requires fine { IsSmallManifold depth mesh.now }
    requires textured { mesh.now.has_texture ≡ true }
    requires base { base ≡ texture_of mesh.now (uv_of_code uv) }
    ensures composed { MatchResult result
        (IsTextureTable (uv_of_code uv) depth mesh.now)
        (λ fault. IsFound (fault_of fault) (texture_refusal (uv_of_code uv) depth mesh.now)) }
    ensures steps { StepsTaken result steps.old steps.new 0 (later_faces depth mesh.now) }
{
    match compose_channel(alloc, base, depth, steps) {
        Ok(composed) => {
            composed.table.facts();
            Ok(composed)
        }
        Err(fault) => Err(fault_of_walk(fault, Track::Texture)),
    }
}

// A level with its table and the values of the cut mesh, or the fault of the table.
fn with_values(
    composed: Result<ComposedChannel, FarFault>,
    values: Vec<Point2>,
) -> Result<Option<ComposedTexture>, FarFault>
    ensures { MatchResult composed
        (λ composed. IsOkAnd result (λ texture. texture ≡ Some (record { level = composed.level; table = composed.table; values = values })))
        (λ fault. result ≡ Err fault) }
{
    composed.map(|composed| {
        Some(ComposedTexture {
            level: composed.level,
            table: composed.table,
            values,
        })
    })
}

// The table of a texture at a depth with the values of the cut mesh, from its channel with these values.
fn texture_from<L: Ledger>(
    alloc: Global,
    mesh: &RawMesh,
    uv: Uv,
    texture: BaseTexture,
    depth: u32,
    steps: &mut Steps<L>,
) -> Result<Option<ComposedTexture>, FarFault>
    requires depth { depth ≤ 10 }
    requires base { IsTextureBase (uv_of_code uv) depth mesh.now (Some texture) }
    ensures composed { IsTextureComposition (uv_of_code uv) depth mesh.now result }
    ensures steps { StepsTaken result steps.old steps.new 0 (later_faces depth mesh.now) }
{
    let BaseTexture { base, values } = texture;
    let composed = table_of_texture(alloc, mesh, uv, base, depth, steps);
    with_values(composed, values)
}

/// Returns the level of a mesh's cut mesh at `depth`, at most 10, with the table of its texture points. The control points of the table
/// are the points of the cut mesh; the call returns their values too. It returns `None` for a mesh without texture.
///
/// The call counts at most one step for each face of level 0. For a texture it adds at most one for each face of the levels from 0 to
/// `depth`.
///
/// Errors, in this order; `Memory` may come at any time:
///
/// - `Mesh`: the first fault of a mesh that is not a manifold;
/// - `TooLarge`: the first count of the mesh that passes its limit;
/// - `TooLarge`: the first level, counted from 1, that would have more than 2^22 faces, and their number;
/// - `Overflow` or `TooLarge`: the first level, counted from 1, at which a number or a count of the texture passes its bound.
///   [`stencils`] gives the order within a level.
pub fn compose_texture<L: Ledger>(
    alloc: Global,
    mesh: &RawMesh,
    uv: Uv,
    depth: u32,
    steps: &mut Steps<L>,
) -> Result<Option<ComposedTexture>, FarFault>
    requires { depth ≤ 10 }
    ensures composed { IsTextureComposition (uv_of_code uv) depth mesh.now result }
    ensures steps { StepsTaken result steps.old steps.new 0 (length mesh.now.faces + where_textured mesh.now (level_faces_to depth mesh.now)) }
{
    match texture_base(alloc, mesh, uv, depth, steps)? {
        Some(texture) => texture_from(alloc, mesh, uv, texture, depth, steps),
        None => Ok(None),
    }
}
