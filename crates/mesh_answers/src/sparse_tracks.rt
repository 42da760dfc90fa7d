//! The positions and the texture of a mesh before its sparse levels.

ghost use Rattle.std.specs.Prelude.{◌≡◌, ◌+◌, length, IfOk, MatchResult, List};
ghost use Rattle.subdiv_model.specs.Fault.{Fault};
ghost use Rattle.far_fault.specs.View.{fault_of};
ghost use Rattle.far_model.specs.Answer.{positions_of, sparse_uv};
ghost use Rattle.far_words.specs.View.{sparse_of_code};
ghost use Rattle.mesh_check.specs.Checked.{IsAccepted};
ghost use Rattle.ratio128.specs.StepsTaken.{StepsTaken};
ghost use Rattle.mesh_answers.specs.Refusals.{refusal_by, IsFound};
ghost use Rattle.mesh_answers.specs.SparseLevels.{AreSparseTracks, IsSparseBase};
ghost use Rattle.mesh_answers.specs.StepCounts.{sparse_cut_steps};

use crate::level::level_0;
use crate::tracks::{BaseTexture, BaseTracks, cut_texture, position_channel};
use far_fault::FarFault;
use far_words::SparseOptions;
use level_topology::Level;
use ratio128::{Memory, Steps};
use raw_mesh::RawMesh;
use std::alloc::Global;
use std::sync::ledger::Ledger;

// The channel of the texture, if the mesh has one and the options ask for it.
fn sparse_texture<L: Ledger>(
    alloc: Global,
    mesh: &RawMesh,
    level: &Level,
    options: &SparseOptions,
    steps: &mut Steps<L>,
) -> Result<Option<BaseTexture>, Memory>
    requires { IsAccepted mesh.now level.now }
    ensures texture { IfOk result (λ texture. IsSparseBase (sparse_uv (sparse_of_code options.now) mesh.now) mesh.now texture) }
    ensures steps { StepsTaken result steps.old steps.new 0 (sparse_cut_steps mesh.now (sparse_uv (sparse_of_code options.now) mesh.now)) }
{
    match options.uv.texture() {
        Some(uv) => cut_texture(alloc, mesh, level, uv, steps),
        None => Ok(None),
    }
}

// The channels of a mesh, from its level 0.
fn tracks_from<L: Ledger>(
    alloc: Global,
    mesh: &RawMesh,
    level: Level,
    options: &SparseOptions,
    steps: &mut Steps<L>,
) -> Result<BaseTracks, Memory>
    requires { IsAccepted mesh.now level }
    ensures positions { IfOk result (λ tracks. tracks.positions ≡ positions_of mesh.now) }
    ensures texture { IfOk result (λ tracks. IsSparseBase (sparse_uv (sparse_of_code options.now) mesh.now) mesh.now tracks.texture) }
    ensures steps { StepsTaken result steps.old steps.new 0 (sparse_cut_steps mesh.now (sparse_uv (sparse_of_code options.now) mesh.now)) }
{
    // This makes the cut mesh before the positions take level 0 over.
    match sparse_texture(alloc, mesh, &level, options, steps) {
        Ok(texture) => Ok(BaseTracks {
            positions: position_channel(mesh, level),
            texture,
        }),
        Err(fault) => {
            // The prover proves a named drop once for each type.
            drop(level);
            Err(fault)
        }
    }
}

/// The channels of a mesh for its sparse levels.
pub(crate) fn sparse_tracks<L: Ledger>(
    alloc: Global,
    mesh: &RawMesh,
    options: &SparseOptions,
    steps: &mut Steps<L>,
) -> Result<BaseTracks, FarFault>
    ensures tracks { MatchResult result (λ tracks. AreSparseTracks (sparse_of_code options.now) mesh.now tracks)
        (λ fault. (faults : List Fault) → IsFound (fault_of fault) (refusal_by faults mesh.now)) }
    ensures steps { StepsTaken result steps.old steps.new 0 (length mesh.now.faces + sparse_cut_steps mesh.now (sparse_uv (sparse_of_code options.now) mesh.now)) }
{
    let level = level_0(alloc, mesh, steps)?;
    Ok(tracks_from(alloc, mesh, level, options, steps)?)
}
