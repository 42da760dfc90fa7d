//! The bytes of a source, and the mesh of their text.

ghost use Rattle.std.specs.Prelude.{◌≡◌, ◌≤◌, ◌^◌, length, IfOk, IfErr, MatchResult, OnOk};
ghost use Rattle.far_model.specs.Answer.{byte_limit};
ghost use Rattle.far_model.specs.Command.{Command, ReadCommand, Reads};
ghost use Rattle.far_io.specs.Bytes.{Took, IsDry};
ghost use Rattle.far_fault.specs.View.{fault_of};
ghost use Rattle.mesh_answers.specs.MeshText.{IsMeshText, IsTextFault};
ghost use Rattle.far_engine.specs.Input.{IsMeshOf, IsRefused, ReadsWhole, input_fault_of};

use far_fault::FarFault;
use far_io::{InputFault, Source, read_all};
use mesh_answers::mesh_of_text;
use raw_mesh::RawMesh;
use std::alloc::Global;

/// The greatest number of bytes of an input.
pub(crate) const LIMIT: usize = 1 << 28;

/// The fault of a source that could not be read to its end.
pub(crate) fn fault_of_input(fault: InputFault) -> FarFault
    ensures { fault_of result ≡ input_fault_of fault }
{
    match fault {
        InputFault::Read => FarFault::Read,
        InputFault::Long => FarFault::Long,
        InputFault::Memory => FarFault::Memory,
    }
}

/// All bytes of a source.
pub(crate) fn bytes_of<S: Source>(alloc: Global, source: &mut S) -> Result<Vec<u8>, FarFault>
    ensures all { IfOk result (λ bytes. Took (S.left source.old) (S.left source.new) bytes.items) }
    ensures dry { OnOk result (IsDry (S.left source.new)) }
    ensures short { IfOk result (λ bytes. length bytes.items ≤ byte_limit) }
    ensures fault { (command : Command) → ReadsWhole command → IfErr result (λ fault. IsRefused S.Source command source.old source.new (fault_of fault)) }
    ensures later { S.faults source.old ≤ S.faults source.new }
{
    match read_all(alloc, source, LIMIT) {
        Ok(bytes) => Ok(bytes),
        Err(fault) => Err(fault_of_input(fault)),
    }
}

/// The mesh of a source, which the function reads to its end.
pub(crate) fn read_mesh<S: Source>(alloc: Global, source: &mut S) -> Result<RawMesh, FarFault>
    ensures { MatchResult result (λ mesh. IsMeshOf S.Source source.old source.new mesh)
        (λ fault. (command : ReadCommand) → IsRefused S.Source (Reads command) source.old source.new (fault_of fault)) }
{
    let bytes = bytes_of(alloc, source)?;
    mesh_of_text(alloc, &bytes, 0)
}
