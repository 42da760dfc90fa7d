//! The faults of a mesh.

ghost use Rattle.std.specs.Prelude.{◌≡◌, length};
ghost use Rattle.far_c.specs.Faults.{AnswersFaults};
ghost use Rattle.far_c.specs.Status.{IsKeptUnlessRefused, IsKeptIfRefused};

use crate::status::written;
use array_answers::{FaultRecord, faults_of_arrays, put_mesh_faults};
use mesh_arrays::MeshArrays;
use std::alloc::Global;

/// Writes the records of all faults of a mesh to the front of `out`, in their order, and their number to `count`. A manifold has none. If
/// `out` is too short, it writes only the number.
#[unsafe(no_mangle)]
pub extern "C" fn far_mesh_faults(
    alloc: Global,
    mesh: &MeshArrays,
    count: &mut u64,
    out: &mut [FaultRecord],
    fault: &mut FaultRecord,
) -> u32
    ensures answer { AnswersFaults mesh.now result count.new out.old out.new fault.new }
    ensures len { length out.new ≡ length out.old }
    ensures stays { IsKeptIfRefused result count.old count.new × IsKeptUnlessRefused result fault.old fault.new }
{
    match faults_of_arrays(alloc, mesh) {
        Ok(faults) => {
            *count = faults.len() as u64;
            let done = put_mesh_faults(&faults, out);
            written(done)
        }
        Err(found) => {
            *fault = found;
            found.status
        }
    }
}
