//! A mesh refined to a depth, with its texture.

ghost use Rattle.std.specs.Prelude.{◌≡◌, ◌+◌, Some, MatchResult};
ghost use Rattle.far_model.specs.Command.{Refine, IsReadInRange};
ghost use Rattle.far_model.specs.Answer.{asked_of, positions_of};
ghost use Rattle.channel_refine.specs.View.{asked_of_path};
ghost use Rattle.far_fault.specs.View.{fault_of};
ghost use Rattle.far_words.specs.View.{by_of_code, refine_of_code, uv_of_code};
ghost use Rattle.ratio128.specs.StepsTaken.{StepsTaken};
ghost use Rattle.mesh_answers.specs.Levels.{IsSmallManifold};
ghost use Rattle.mesh_answers.specs.Replies.{IsAnswerTo, IsReplyOr, IsReplyTo};
ghost use Rattle.mesh_answers.specs.StepCounts.{position_most, position_steps, texture_least, texture_most};
ghost use Rattle.mesh_answers.specs.Tracks.{ArePositions, IsBaseTexture, IsPositionFault, IsTextureFault, IsTextureOf};

use crate::tracks::{BaseTexture, BaseTracks, base_tracks};
use channel_refine::{BaseChannel, Path, RefinedChannel, refine_along};
use far_fault::{FarFault, Track, fault_of_walk};
use far_text::{MeshForm, RefinedMesh, RefinedTexture, Reply};
use far_words::{By, RefineOptions};
use ratio128::{Point3, Steps};
use raw_mesh::RawMesh;
use std::alloc::Global;
use std::sync::ledger::Ledger;

// The path of refinement that an option names.
fn path_of(by: By) -> Path
    ensures { asked_of_path result ≡ asked_of (by_of_code by) }
{
    match by {
        By::Table => Path::Table,
        By::Level => Path::Levels,
    }
}

// The form of the refined mesh that the options ask for.
fn form_of(options: &RefineOptions) -> MeshForm
    ensures decimals { result.decimals ≡ options.now.decimals }
    ensures tags { result.tags ≡ options.now.tags }
{
    MeshForm {
        decimals: options.decimals,
        tags: options.tags,
    }
}

/// Returns the level of a mesh at a depth of at most 10, with its points, and with its texture if the mesh has one. The reply writes
/// numbers as fractions in lowest terms, or rounded to at most 18 decimals. It has tags if the options ask for them.
///
/// The call refines the positions and, on its cut mesh, the texture. For both it counts one step for each entry of the table, or for each
/// mask term if it works level by level. For both it adds at most one for each face of the levels from 0 to the depth.
///
/// Errors, in this order; `Memory` may come at any time:
///
/// - the errors of [`stencils`], for the positions;
/// - `Overflow` or `TooLarge`: the first level, counted from 1, at which a number or a count of the texture passes its bound.
///
/// Level by level there is no table, and so no limit on its entries.
pub fn refine<L: Ledger>(
    alloc: Global,
    mesh: &RawMesh,
    options: &RefineOptions,
    steps: &mut Steps<L>,
) -> Result<Reply, FarFault>
    requires { IsReadInRange (Refine (refine_of_code options.now)) }
    ensures { IsAnswerTo (Refine (refine_of_code options.now)) mesh.now result steps.old steps.new }
{
    let BaseTracks { positions, texture } = base_tracks(
        alloc,
        mesh,
        options.uv,
        options.depth,
        steps,
    )?;
    let refined = positions_at(alloc, mesh, positions, options, steps)?;
    reply_with(alloc, mesh, refined, texture, options, steps)
}

// The positions of a mesh at a depth, from their channel.
fn positions_at<L: Ledger>(
    alloc: Global,
    mesh: &RawMesh,
    base: BaseChannel,
    options: &RefineOptions,
    steps: &mut Steps<L>,
) -> Result<RefinedChannel<Point3>, FarFault>
    requires range { IsReadInRange (Refine (refine_of_code options.now)) }
    requires fine { IsSmallManifold options.now.depth mesh.now }
    requires base { base ≡ positions_of mesh.now }
    ensures positions { let asked = refine_of_code options.now in MatchResult result (λ positions. ArePositions asked mesh.now positions) (λ fault. IsPositionFault asked mesh.now (fault_of fault)) }
    ensures steps { let asked = refine_of_code options.now in StepsTaken result steps.old steps.new (position_steps asked.by asked.depth mesh.now) (position_most asked mesh.now) }
{
    mesh.facts();
    let path = path_of(options.by);
    let points = mesh.points();
    match refine_along(alloc, base, points, path, options.depth, steps) {
        Ok(refined) => Ok(refined),
        Err(fault) => Err(fault_of_walk(fault, Track::Positions)),
    }
}

// The texture of a mesh at a depth, from its channel.
fn texture_at<L: Ledger>(
    alloc: Global,
    mesh: &RawMesh,
    texture: BaseTexture,
    options: &RefineOptions,
    steps: &mut Steps<L>,
) -> Result<RefinedTexture, FarFault>
    requires range { IsReadInRange (Refine (refine_of_code options.now)) }
    requires fine { IsSmallManifold options.now.depth mesh.now }
    requires base { IsBaseTexture (uv_of_code options.now.uv) mesh.now (Some texture) }
    ensures texture { let asked = refine_of_code options.now in MatchResult result (λ texture. IsTextureOf asked mesh.now (Some texture)) (λ fault. IsTextureFault asked mesh.now (fault_of fault)) }
    ensures steps { let asked = refine_of_code options.now in StepsTaken result steps.old steps.new (texture_least asked mesh.now) (texture_most asked mesh.now) }
{
    mesh.facts();
    let path = path_of(options.by);
    let common = mesh.texture_scale();
    let BaseTexture { base, values } = texture;
    match refine_along(alloc, base, &values, path, options.depth, steps) {
        Ok(RefinedChannel { level, values }) => Ok(RefinedTexture {
            level,
            values,
            common,
        }),
        Err(fault) => Err(fault_of_walk(fault, Track::Texture)),
    }
}

// The reply with the positions of a mesh at a depth, and with its texture there.
fn textured_reply<L: Ledger>(
    alloc: Global,
    mesh: &RawMesh,
    positions: RefinedChannel<Point3>,
    texture: BaseTexture,
    options: &RefineOptions,
    steps: &mut Steps<L>,
) -> Result<Reply, FarFault>
    requires range { IsReadInRange (Refine (refine_of_code options.now)) }
    requires fine { IsSmallManifold options.now.depth mesh.now }
    requires positions { ArePositions (refine_of_code options.now) mesh.now positions }
    requires base { IsBaseTexture (uv_of_code options.now.uv) mesh.now (Some texture) }
    ensures reply { IsReplyOr (Refine (refine_of_code options.now)) mesh.now result }
    ensures steps { let asked = refine_of_code options.now in StepsTaken result steps.old steps.new (texture_least asked mesh.now) (texture_most asked mesh.now) }
{
    let texture = texture_at(alloc, mesh, texture, options, steps)?;
    Ok(reply_of(mesh, options, positions, Some(texture)))
}

// The reply with the positions of a mesh at a depth, and with its texture there if it has one.
fn reply_with<L: Ledger>(
    alloc: Global,
    mesh: &RawMesh,
    positions: RefinedChannel<Point3>,
    texture: Option<BaseTexture>,
    options: &RefineOptions,
    steps: &mut Steps<L>,
) -> Result<Reply, FarFault>
    requires range { IsReadInRange (Refine (refine_of_code options.now)) }
    requires fine { IsSmallManifold options.now.depth mesh.now }
    requires positions { ArePositions (refine_of_code options.now) mesh.now positions }
    requires base { IsBaseTexture (uv_of_code options.now.uv) mesh.now texture }
    ensures reply { IsReplyOr (Refine (refine_of_code options.now)) mesh.now result }
    ensures steps { let asked = refine_of_code options.now in StepsTaken result steps.old steps.new (texture_least asked mesh.now) (texture_most asked mesh.now) }
{
    match texture {
        Some(texture) => textured_reply(alloc, mesh, positions, texture, options, steps),
        None => Ok(reply_of(mesh, options, positions, None)),
    }
}

// The reply with the positions of a mesh at a depth, and its texture there if it has one.
fn reply_of(
    mesh: &RawMesh,
    options: &RefineOptions,
    positions: RefinedChannel<Point3>,
    texture: Option<RefinedTexture>,
) -> Reply
    requires range { IsReadInRange (Refine (refine_of_code options.now)) }
    requires fine { IsSmallManifold options.now.depth mesh.now }
    requires positions { ArePositions (refine_of_code options.now) mesh.now positions }
    requires texture { IsTextureOf (refine_of_code options.now) mesh.now texture }
    ensures { IsReplyTo (Refine (refine_of_code options.now)) mesh.now result }
{
    let refined = RefinedMesh {
        level: positions.level,
        values: positions.values,
        common: mesh.scale(),
        texture,
    };
    Reply::Refined(refined, form_of(options))
}
