//! Additions to a list of faults.

ghost use Rattle.std.specs.Prelude.{◌≡◌, [], ◌∷◌, ◌++◌, map, OnOk, if◌then◌else◌};
ghost use Rattle.mesh_check.specs.View.{mesh_fault_of};

use crate::fault::MeshFault;
use ratio128::Memory;

// Adds a fault to the list, if `put` is true.
pub(crate) fn put_if(put: bool, faults: &mut Vec<MeshFault>, fault: MeshFault) -> Result<(), Memory>
    ensures { OnOk result (map mesh_fault_of faults.new.items ≡ map mesh_fault_of faults.old.items ++ (if put then mesh_fault_of fault ∷ [] else [])) }
{
    if put {
        faults.push(fault)?;
    }
    Ok(())
}
