//! Level 0 of a mesh, and the check that no level up to a depth has too many faces.

ghost use Rattle.std.specs.Prelude.{◌≡◌, ◌+◌, ◌≤◌, ◌<◌, ◌^◌, List, ◌++◌, length, MatchResult};
ghost use Rattle.std.specs.List.{sum_by};
ghost use Rattle.subdiv_model.specs.Polygons.{Polygon};
ghost use Rattle.subdiv_model.specs.Lists.{first_of};
ghost use Rattle.subdiv_model.specs.Fault.{Fault};
ghost use Rattle.subdiv_model.specs.Limits.{level_count_faults};
ghost use Rattle.mesh_check.specs.Checked.{IsAccepted};
ghost use Rattle.mesh_check.specs.Counts.{count_named};
ghost use Rattle.ratio128.specs.StepsTaken.{StepsTaken};
ghost use Rattle.far_fault.specs.View.{fault_of};
ghost use Rattle.mesh_answers.specs.Levels.{IsLevelWithin, IsFoundWithin};
ghost use Rattle.mesh_answers.specs.Refusals.{refusal_by, IsFound};

use far_fault::FarFault;
use level_topology::{Counted, Level};
use mesh_check::{CheckFault, check_mesh};
use ratio128::Steps;
use ratio128::limits::FACE_LIMIT;
use raw_mesh::RawMesh;
use std::alloc::Global;
use std::sync::ledger::Ledger;
use uniform_refiner::next_faces;

// The first level from 1 to `depth` that would have more than 2^22 faces. Level 1 has `first` faces.
fn level_fault(first: u64, depth: u32) -> Option<Counted>
    requires { first < 2 ^ 28 }
    ensures { (polygons : List Polygon) → first ≡ sum_by length polygons → count_named result ≡ first_of (level_count_faults polygons depth) }
{
    let mut count = first;
    for k in 0..depth {
        if count > FACE_LIMIT {
            return Some(Counted::LevelFaces {
                level: k + 1,
                count,
            });
        }
        count *= 4;
    }
    None
}

/// Level 0 of a mesh, or the fault of the mesh.
pub(crate) fn level_0<L: Ledger>(
    alloc: Global,
    mesh: &RawMesh,
    steps: &mut Steps<L>,
) -> Result<Level, FarFault>
    ensures checked { MatchResult result (λ level. IsAccepted mesh.now level)
        (λ fault. (faults : List Fault) → IsFound (fault_of fault) (refusal_by faults mesh.now)) }
    ensures steps { StepsTaken result steps.old steps.new 0 (length mesh.now.faces) }
{
    match check_mesh(alloc, mesh, steps) {
        Ok(level) => Ok(level),
        Err(CheckFault::Mesh(fault)) => Err(FarFault::Mesh(fault)),
        Err(CheckFault::TooLarge(counted)) => Err(FarFault::TooLarge(counted)),
        Err(CheckFault::Memory) => Err(FarFault::Memory),
    }
}

/// Level 0 of a mesh, after the check that no level up to the depth has too many faces.
pub(crate) fn level_within<L: Ledger>(
    alloc: Global,
    mesh: &RawMesh,
    depth: u32,
    steps: &mut Steps<L>,
) -> Result<Level, FarFault>
    ensures level { MatchResult result (λ level. IsLevelWithin depth mesh.now level) (λ fault. IsFoundWithin depth mesh.now (fault_of fault)) }
    ensures steps { StepsTaken result steps.old steps.new 0 (length mesh.now.faces) }
{
    let level = level_0(alloc, mesh, steps)?;
    match level_fault(next_faces(&level), depth) {
        Some(counted) => {
            // The prover proves a named drop once for each type.
            drop(level);
            Err(FarFault::TooLarge(counted))
        }
        None => Ok(level),
    }
}
