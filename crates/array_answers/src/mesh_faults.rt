//! The records of the faults of a mesh in a caller's array.

ghost use Rattle.std.specs.Prelude.{◌≡◌, ◌≤◌, nat_le, true, false, length, map, take, drop};
ghost use Rattle.mesh_check.specs.View.{mesh_fault_of};
ghost use Rattle.array_answers.specs.MeshFaults.{records_of};

use crate::record::FaultRecord;
use crate::record_table::mesh_record;
use flat_arrays::put_item;
use mesh_check::MeshFault;

// Writes the record of each fault into the first places.
fn put_records(faults: &[MeshFault], out: &mut [FaultRecord])
    requires fits { length faults.now ≤ length out.old }
    ensures written { take (length faults.now) out.new ≡ records_of (map mesh_fault_of faults.now) }
    ensures rest { drop (length faults.now) out.new ≡ drop (length faults.now) out.old }
    ensures len { length out.new ≡ length out.old }
{
    for k in 0..faults.len() {
        put_item(out, k, mesh_record(faults[k]));
    }
}

/// Writes the record of each fault of a mesh to the front of `out`, in the order of the faults, and returns true. If `out` is too short,
/// it writes nothing and returns false. The records behind them stay as they are.
pub fn put_mesh_faults(faults: &[MeshFault], out: &mut [FaultRecord]) -> bool
    ensures fits { result ≡ nat_le (length faults.now) (length out.old) }
    ensures written { result ≡ true → take (length faults.now) out.new ≡ records_of (map mesh_fault_of faults.now) }
    ensures rest { drop (length faults.now) out.new ≡ drop (length faults.now) out.old }
    ensures kept { result ≡ false → out.new ≡ out.old }
    ensures len { length out.new ≡ length out.old }
{
    if faults.len() > out.len() {
        return false;
    }
    put_records(faults, out);
    true
}
