//! The mesh of an OBJ text.

ghost use Rattle.std.specs.Prelude.{◌^◌, ◌≤◌, length, MatchResult};
ghost use Rattle.far_fault.specs.View.{fault_of};
ghost use Rattle.mesh_answers.specs.MeshText.{IsMeshText, IsTextFault};

use far_fault::FarFault;
use obj_tags::{ObjFault, ReadFault, read_obj};
use raw_mesh::RawMesh;
use std::alloc::Global;

/// Returns the mesh of an OBJ text of at most 2^28 bytes. The common denominator of its positions is a multiple of ten to the power
/// `scale`, which is at most 18.
///
/// Errors: `Obj` with the first bad line, counted from 1, and its cause; `Memory`.
pub fn mesh_of_text(alloc: Global, bytes: &[u8], scale: u32) -> Result<RawMesh, FarFault>
    requires short { length bytes.now ≤ 2 ^ 28 }
    requires scale { scale ≤ 18 }
    ensures { MatchResult result (λ mesh. IsMeshText bytes.now scale mesh) (λ fault. IsTextFault bytes.now scale (fault_of fault)) }
{
    match read_obj(alloc, bytes, scale) {
        Ok(mesh) => Ok(mesh),
        Err(ReadFault::Obj(ObjFault { line, cause })) => Err(FarFault::Obj { line, cause }),
        Err(ReadFault::Memory) => Err(FarFault::Memory),
    }
}
