// Level 0 of the meshes of tests.

ghost use Rattle.std.specs.Prelude.{◌≡◌, ◌^◌, ◌≤◌, IfOk};
ghost use Rattle.subdiv_model.specs.Base.{base_level};
ghost use Rattle.channel_refine.specs.Base.{IsBase};

use level_topology::Level;
use mesh_check::{CheckFault, check_mesh};
use ratio128::Steps;
use raw_mesh::RawMesh;
use std::alloc::Global;
use std::process::Abort;
use std::sync::ledger::Ledger;

// Asserts that a level has few points.
fn assert_few(rt: &impl Abort, level: &Level)
    ensures { level.now.level.point_count ≤ 2 ^ 20 }
{
    assert!(rt; level.points() <= 1 << 20);
}

// Level 0 of a mesh, which can be refined.
pub fn level_of<L: Ledger>(
    rt: &impl Abort,
    alloc: Global,
    mesh: &RawMesh,
    steps: &mut Steps<L>,
) -> Result<Level, CheckFault>
    ensures base { IfOk result IsBase }
    ensures level { IfOk result (λ level. level.level ≡ base_level mesh.now) }
{
    let level = check_mesh(alloc, mesh, steps)?;
    assert_few(rt, &level);
    Ok(level)
}
