//! The positions and the texture of a mesh before refinement.

ghost use Rattle.std.specs.Prelude.{◌≡◌, ◌+◌, true, length, map, max, Some, None, IfOk, MatchResult};
ghost use Rattle.raw_mesh.specs.View.{point_of, texture_of as value_of};
ghost use Rattle.subdiv_model.specs.MeshFault.{first_mesh_fault};
ghost use Rattle.subdiv_model.specs.Channel.{greatest_amount};
ghost use Rattle.far_model.specs.Answer.{point_numbers, positions_of, texture_numbers, seams_of, scheme_of};
ghost use Rattle.mask_rules.specs.View as rules;
ghost use Rattle.mesh_check.specs.Checked.{IsAccepted};
ghost use Rattle.face_varying.specs.Cut.{IsCut};
ghost use Rattle.face_varying.specs.View.{mode_of};
ghost use Rattle.far_fault.specs.View.{fault_of};
ghost use Rattle.far_words.specs.View.{uv_of_code};
ghost use Rattle.ratio128.specs.StepsTaken.{StepsTaken};
ghost use Rattle.mesh_answers.specs.Levels.{IsLevelWithin, IsFoundWithin};
ghost use Rattle.mesh_answers.specs.StepCounts.{where_textured};
ghost use Rattle.mesh_answers.specs.Tracks.{AreBaseTracks, IsBaseTexture};

use crate::level::level_within;
use channel_refine::BaseChannel;
use face_varying::{Channel, SeamMode, cut};
use far_fault::FarFault;
use far_words::Uv;
use level_topology::Level;
use mask_rules::Scheme;
use ratio128::{Memory, Point2, Point3, Steps};
use raw_mesh::RawMesh;
use std::alloc::Global;
use std::sync::ledger::Ledger;

/// The channel of a texture with the values of its points.
#[derive(Drop)]
pub(crate) struct BaseTexture {
    pub(crate) base: BaseChannel,
    pub(crate) values: Vec<Point2>,
}

/// The channels of a mesh: that of its positions, and that of its texture if it has one. The points of the mesh are the values of its
/// positions.
#[derive(Drop)]
pub(crate) struct BaseTracks {
    pub(crate) positions: BaseChannel,
    pub(crate) texture: Option<BaseTexture>,
}

// The part of a seam that stays sharp. A linear texture has smooth seams.
fn seams_of(uv: Uv) -> SeamMode
    ensures { mode_of result ≡ seams_of (uv_of_code uv) }
{
    match uv {
        Uv::Smooth | Uv::Linear => SeamMode::Smooth,
        Uv::Corners => SeamMode::Corners,
        Uv::Boundaries => SeamMode::Boundaries,
    }
}

// The scheme that refines a texture.
fn scheme_of(uv: Uv) -> Scheme
    ensures { rules.scheme_of result ≡ scheme_of (uv_of_code uv) }
{
    match uv {
        Uv::Smooth | Uv::Corners | Uv::Boundaries => Scheme::CatmullClark,
        Uv::Linear => Scheme::Linear,
    }
}

// The greatest amount of the coordinates, or 0 without points.
fn greatest_of_points(points: &[Point3]) -> u128
    ensures { result ≡ greatest_amount (point_numbers (map point_of points.now)) }
{
    let mut greatest = 0;
    let mut rest = points;
    while let [p, others @ ..] = rest {
        greatest = greatest
            .max(p.x.unsigned_abs())
            .max(p.y.unsigned_abs())
            .max(p.z.unsigned_abs());
        rest = others;
    }
    greatest
}

// The greatest amount of the texture values, or 0 without values.
fn greatest_of_values(values: &[Point2]) -> u128
    ensures { result ≡ greatest_amount (texture_numbers (map value_of values.now)) }
{
    let mut greatest = 0;
    let mut rest = values;
    while let [p, others @ ..] = rest {
        greatest = greatest.max(p.u.unsigned_abs()).max(p.v.unsigned_abs());
        rest = others;
    }
    greatest
}

/// Returns the greatest amount of a coordinate of a mesh, or the common denominator of the coordinates if that is greater.
pub fn most_of(mesh: &RawMesh) -> u128
    ensures { result ≡ max (positions_of mesh.now).greatest (positions_of mesh.now).common }
{
    greatest_of_points(mesh.points()).max(mesh.scale())
}

/// The channel of the positions of a mesh, from its level 0.
pub(crate) fn position_channel(mesh: &RawMesh, level: Level) -> BaseChannel
    requires { IsAccepted mesh.now level }
    ensures { result ≡ positions_of mesh.now }
{
    mesh.facts();
    let greatest = greatest_of_points(mesh.points());
    BaseChannel::new(level, Scheme::CatmullClark, greatest, mesh.scale())
}

// The channel of the texture of a mesh, from its cut mesh.
fn texture_channel(mesh: &RawMesh, channel: Channel, uv: Uv) -> BaseTexture
    requires manifold { first_mesh_fault (length mesh.now.points) mesh.now.faces ≡ None }
    requires textured { mesh.now.has_texture ≡ true }
    requires cut { IsCut (seams_of (uv_of_code uv)) mesh.now channel }
    ensures { IsBaseTexture (uv_of_code uv) mesh.now (Some result) }
{
    mesh.facts();
    let (level, values) = channel.into_parts();
    let greatest = greatest_of_values(&values);
    BaseTexture {
        base: BaseChannel::new(level, scheme_of(uv), greatest, mesh.texture_scale()),
        values,
    }
}

/// The channel of the texture of a mesh, if it has one.
pub(crate) fn cut_texture<L: Ledger>(
    alloc: Global,
    mesh: &RawMesh,
    level: &Level,
    uv: Uv,
    steps: &mut Steps<L>,
) -> Result<Option<BaseTexture>, Memory>
    requires { IsAccepted mesh.now level.now }
    ensures texture { IfOk result (λ texture. IsBaseTexture (uv_of_code uv) mesh.now texture) }
    ensures steps { StepsTaken result steps.old steps.new 0 (where_textured mesh.now (length mesh.now.faces)) }
{
    if !mesh.has_texture() {
        return Ok(None);
    }
    let channel = cut(alloc, mesh, level, seams_of(uv), steps)?;
    Ok(Some(texture_channel(mesh, channel, uv)))
}

// The channels of a mesh, from its level 0.
fn tracks_from<L: Ledger>(
    alloc: Global,
    mesh: &RawMesh,
    level: Level,
    uv: Uv,
    steps: &mut Steps<L>,
) -> Result<BaseTracks, Memory>
    requires { IsAccepted mesh.now level }
    ensures positions { IfOk result (λ tracks. tracks.positions ≡ positions_of mesh.now) }
    ensures texture { IfOk result (λ tracks. IsBaseTexture (uv_of_code uv) mesh.now tracks.texture) }
    ensures steps { StepsTaken result steps.old steps.new 0 (where_textured mesh.now (length mesh.now.faces)) }
{
    // This makes the cut mesh before the positions take level 0 over.
    match cut_texture(alloc, mesh, &level, uv, steps) {
        Ok(texture) => Ok(BaseTracks {
            positions: position_channel(mesh, level),
            texture,
        }),
        Err(fault) => {
            // The prover proves a named drop once for each type.
            drop(level);
            Err(fault)
        }
    }
}

/// The channels of a mesh. No level up to the depth has too many faces.
pub(crate) fn base_tracks<L: Ledger>(
    alloc: Global,
    mesh: &RawMesh,
    uv: Uv,
    depth: u32,
    steps: &mut Steps<L>,
) -> Result<BaseTracks, FarFault>
    ensures tracks { MatchResult result (λ tracks. AreBaseTracks (uv_of_code uv) depth mesh.now tracks) (λ fault. IsFoundWithin depth mesh.now (fault_of fault)) }
    ensures steps { StepsTaken result steps.old steps.new 0 (length mesh.now.faces + where_textured mesh.now (length mesh.now.faces)) }
{
    let level = level_within(alloc, mesh, depth, steps)?;
    Ok(tracks_from(alloc, mesh, level, uv, steps)?)
}
