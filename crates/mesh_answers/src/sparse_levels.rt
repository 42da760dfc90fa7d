//! The sparse levels of a mesh, with its texture.

ghost use Rattle.std.specs.Prelude.{◌≡◌, map, Some, Err, IsOkAnd, MatchResult};
ghost use Rattle.far_model.specs.Command.{Sparse, IsReadInRange};
ghost use Rattle.far_model.specs.Answer.{sparse_uv, texture_predicate};
ghost use Rattle.subdiv_model.specs.Fault.{Texture};
ghost use Rattle.far_fault.specs.View.{fault_of};
ghost use Rattle.far_fault.specs.Walk.{walk_fault_of};
ghost use Rattle.ratio128.specs.StepsTaken.{StepsTaken};
ghost use Rattle.far_words.specs.View.{sparse_of_code};
ghost use Rattle.far_text.specs.declared.reply.Reply.TheVariants as variant;
ghost use Rattle.mesh_answers.specs.Refusals.{IsFoundOr};
ghost use Rattle.mesh_answers.specs.Replies.{IsAnswerTo, IsReplyOr};
ghost use Rattle.mesh_answers.specs.SparseLevels.{ArePointsLevels, AreSparseTexture, AreSparseTracks, IsSparseBase, sparse_texture_refusal, textured_sparse};
ghost use Rattle.mesh_answers.specs.StepCounts.{sparse_later_steps, where_sparse_texture};

use crate::sparse_positions::selected_points;
use crate::sparse_tracks::sparse_tracks;
use crate::tracks::{BaseTexture, BaseTracks};
use far_fault::{FarFault, Track, fault_of_walk};
use far_text::{Reply, SparseMesh, SparseTexture, TexturedSparse};
use far_words::SparseOptions;
use level_walk::WalkFault;
use ratio128::{Point2, Point3, Steps};
use raw_mesh::RawMesh;
use sparse_face_varying::{refine_sparse_texture, selected_levels};
use sparse_level::SparseValues;
use std::alloc::Global;
use std::sync::ledger::Ledger;

// The fault of a run for a fault of a walk over the sparse levels of a texture.
fn texture_fault(fault: WalkFault) -> FarFault
    ensures { fault_of result ≡ walk_fault_of Texture fault }
{
    fault_of_walk(fault, Track::Texture)
}

// The sparse levels of the texture, given the numbers of the selected faces of each level.
fn texture_levels<L: Ledger>(
    alloc: Global,
    mesh: &RawMesh,
    numbers: &[Vec<u64>],
    texture: BaseTexture,
    options: &SparseOptions,
    steps: &mut Steps<L>,
) -> Result<Vec<SparseValues<Point2>>, FarFault>
    requires range { IsReadInRange (Sparse (sparse_of_code options.now)) }
    requires numbers { map (λ list. list.items) numbers.now ≡ texture_predicate (sparse_of_code options.now) mesh.now }
    requires base { IsSparseBase (sparse_uv (sparse_of_code options.now) mesh.now) mesh.now (Some texture) }
    ensures levels { let asked = sparse_of_code options.now in IsFoundOr (λ levels. AreSparseTexture asked mesh.now levels.items) (sparse_texture_refusal asked mesh.now) result }
    ensures steps { StepsTaken result steps.old steps.new 0 (where_sparse_texture (sparse_of_code options.now) mesh.now (sparse_uv (sparse_of_code options.now) mesh.now)) }
{
    mesh.facts();
    let BaseTexture { base, values } = texture;
    match refine_sparse_texture(alloc, base, numbers, &values, options.depth, steps) {
        Ok(levels) => Ok(levels),
        Err(fault) => Err(texture_fault(fault)),
    }
}

// The sparse levels of the texture, at the faces that the positions select.
fn texture_like<L: Ledger>(
    alloc: Global,
    mesh: &RawMesh,
    levels: &[SparseValues<Point3>],
    texture: BaseTexture,
    options: &SparseOptions,
    steps: &mut Steps<L>,
) -> Result<Vec<SparseValues<Point2>>, FarFault>
    requires range { IsReadInRange (Sparse (sparse_of_code options.now)) }
    requires levels { ArePointsLevels (sparse_of_code options.now) mesh.now levels.now }
    requires base { IsSparseBase (sparse_uv (sparse_of_code options.now) mesh.now) mesh.now (Some texture) }
    ensures levels { let asked = sparse_of_code options.now in IsFoundOr (λ levels. AreSparseTexture asked mesh.now levels.items) (sparse_texture_refusal asked mesh.now) result }
    ensures steps { StepsTaken result steps.old steps.new 0 (where_sparse_texture (sparse_of_code options.now) mesh.now (sparse_uv (sparse_of_code options.now) mesh.now)) }
{
    let numbers = selected_levels(alloc, levels, options.depth)?;
    texture_levels(alloc, mesh, &numbers, texture, options, steps)
}

// The sparse levels of a mesh as a reply writes them.
fn sparse_mesh(
    mesh: &RawMesh,
    options: &SparseOptions,
    levels: Vec<SparseValues<Point3>>,
) -> SparseMesh
    ensures { result ≡ record { levels = levels; common = mesh.now.common; decimals = options.now.decimals } }
{
    SparseMesh {
        levels,
        common: mesh.scale(),
        decimals: options.decimals,
    }
}

// The reply with the sparse levels of a mesh and of its texture, or the fault.
fn with_texture(
    mesh: &RawMesh,
    options: &SparseOptions,
    levels: Vec<SparseValues<Point3>>,
    texture: Result<Vec<SparseValues<Point2>>, FarFault>,
) -> Result<Reply, FarFault>
    ensures { MatchResult texture
        (λ texture. IsOkAnd result (λ reply. reply ≡ variant.TexturedSparse (textured_sparse mesh.now options.now.decimals levels texture)))
        (λ fault. result ≡ Err fault) }
{
    let points = sparse_mesh(mesh, options, levels);
    let common = mesh.texture_scale();
    texture.map(|levels| {
        Reply::TexturedSparse(TexturedSparse {
            mesh: points,
            texture: SparseTexture { levels, common },
        })
    })
}

// The sparse levels of a mesh with its texture, or the fault of the positions.
fn textured_reply<L: Ledger>(
    alloc: Global,
    mesh: &RawMesh,
    options: &SparseOptions,
    levels: Vec<SparseValues<Point3>>,
    texture: BaseTexture,
    steps: &mut Steps<L>,
) -> Result<Reply, FarFault>
    requires range { IsReadInRange (Sparse (sparse_of_code options.now)) }
    requires levels { ArePointsLevels (sparse_of_code options.now) mesh.now levels.items }
    requires base { IsSparseBase (sparse_uv (sparse_of_code options.now) mesh.now) mesh.now (Some texture) }
    ensures reply { IsReplyOr (Sparse (sparse_of_code options.now)) mesh.now result }
    ensures steps { StepsTaken result steps.old steps.new 0 (where_sparse_texture (sparse_of_code options.now) mesh.now (sparse_uv (sparse_of_code options.now) mesh.now)) }
{
    let texture = texture_like(alloc, mesh, &levels, texture, options, steps);
    with_texture(mesh, options, levels, texture)
}

// The reply with the sparse levels of the positions, and of the texture if the mesh has a channel of it.
fn reply_with<L: Ledger>(
    alloc: Global,
    mesh: &RawMesh,
    options: &SparseOptions,
    levels: Vec<SparseValues<Point3>>,
    texture: Option<BaseTexture>,
    steps: &mut Steps<L>,
) -> Result<Reply, FarFault>
    requires range { IsReadInRange (Sparse (sparse_of_code options.now)) }
    requires levels { ArePointsLevels (sparse_of_code options.now) mesh.now levels.items }
    requires base { IsSparseBase (sparse_uv (sparse_of_code options.now) mesh.now) mesh.now texture }
    ensures reply { IsReplyOr (Sparse (sparse_of_code options.now)) mesh.now result }
    ensures steps { StepsTaken result steps.old steps.new 0 (where_sparse_texture (sparse_of_code options.now) mesh.now (sparse_uv (sparse_of_code options.now) mesh.now)) }
{
    match texture {
        Some(texture) => textured_reply(alloc, mesh, options, levels, texture, steps),
        None => Ok(Reply::Sparse(sparse_mesh(mesh, options, levels))),
    }
}

// The reply with the sparse levels of the channels of a mesh.
fn sparse_from<L: Ledger>(
    alloc: Global,
    mesh: &RawMesh,
    tracks: BaseTracks,
    options: &SparseOptions,
    steps: &mut Steps<L>,
) -> Result<Reply, FarFault>
    requires range { IsReadInRange (Sparse (sparse_of_code options.now)) }
    requires tracks { AreSparseTracks (sparse_of_code options.now) mesh.now tracks }
    ensures reply { IsReplyOr (Sparse (sparse_of_code options.now)) mesh.now result }
    ensures steps { StepsTaken result steps.old steps.new 0 (sparse_later_steps (sparse_of_code options.now) mesh.now) }
{
    let BaseTracks { positions, texture } = tracks;
    let levels = selected_points(alloc, mesh, positions, options, steps)?;
    reply_with(alloc, mesh, options, levels, texture, steps)
}

/// Returns the sparse levels of a mesh from level 0 to a depth of at most 10, with the points that each level writes. The options select
/// the faces to refine. If the mesh has texture and the options ask for it, each level also has its texture points; the texture refines
/// the faces that the positions select.
///
/// The reply writes numbers as fractions in lowest terms, or rounded to at most 18 decimals. The call counts at most one step for each
/// present face of the levels from 0 to the depth, and for each entry of their present points. For a texture it adds at most one for each
/// of the texture's own.
///
/// Errors, in this order; `Memory` may come at any time:
///
/// - the errors of [`sparse_points`];
/// - `TooLarge` or `Overflow`: the first level, counted from 1, at which a count or a number of the texture passes its bound.
pub fn sparse<L: Ledger>(
    alloc: Global,
    mesh: &RawMesh,
    options: &SparseOptions,
    steps: &mut Steps<L>,
) -> Result<Reply, FarFault>
    requires { IsReadInRange (Sparse (sparse_of_code options.now)) }
    ensures { IsAnswerTo (Sparse (sparse_of_code options.now)) mesh.now result steps.old steps.new }
{
    let tracks = sparse_tracks(alloc, mesh, options, steps)?;
    sparse_from(alloc, mesh, tracks, options, steps)
}
