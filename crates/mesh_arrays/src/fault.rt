//! The fault that kept arrays from becoming a mesh.

ghost use Rattle.std.specs.Prelude.{Some, ◌≡◌};
ghost use Rattle.mesh_arrays.specs.Faults as spec;
ghost use Rattle.mesh_arrays.specs.FaultText.{arrays_fault_text};

use ratio128::Memory;
use raw_mesh::{BadPart, PartsFault};
use std::alloc::AllocError;
use std::fmt;

/// The fault that kept arrays from becoming a mesh. Faults are tested in the order of these variants. Places are counted from 0.
#[derive(Clone, Copy, Debug, PartialEq, Eq)]
pub enum ArraysFault {
    /// The boundary mode is above 2.
    Boundary,
    /// The method is above 1.
    Method,
    /// The sharpness of the crease at this place has a denominator that is not from 1 to 2^60.
    CreaseSharpness(usize),
    /// The sharpness of the corner tag at this place has a denominator that is not from 1 to 2^60.
    CornerSharpness(usize),
    /// The first part at fault.
    Part(BadPart),
    /// Memory ran out.
    Memory,
}

impl fmt::Display for ArraysFault {
    ghost output = { λ fault. Some (arrays_fault_text fault) };

    fn fmt<W: fmt::Write>(&self, f: &mut fmt::Formatter<W>) -> fmt::Result {
        match *self {
            ArraysFault::Boundary => f.write_str("the boundary mode is not from 0 to 2"),
            ArraysFault::Method => f.write_str("the method is not 0 or 1"),
            ArraysFault::CreaseSharpness(place) => {
                write!(
                    f,
                    "the sharpness of crease {place} is over 0 or over more than 2^60"
                )
            }
            ArraysFault::CornerSharpness(place) => {
                write!(
                    f,
                    "the sharpness of corner tag {place} is over 0 or over more than 2^60"
                )
            }
            ArraysFault::Part(bad) => write!(f, "{bad}"),
            ArraysFault::Memory => f.write_str(Memory.text()),
        }
    }
}

impl std::error::Error for ArraysFault {}

impl From<AllocError> for ArraysFault {
    ghost use Rattle.mesh_arrays.specs.declared.fault.ArraysFault.TheVariants.{Memory};

    ghost from_gives = { λ _ e. e ≡ Memory };

    fn from(_: AllocError) -> ArraysFault {
        ArraysFault::Memory
    }
}

// Returns the fault of the arrays for a fault of their parts.
pub(crate) fn fault_of_parts(fault: PartsFault) -> ArraysFault
    ensures { result ≡ spec.fault_of_parts fault }
{
    match fault {
        PartsFault::Bad(bad) => ArraysFault::Part(bad),
        PartsFault::Memory => ArraysFault::Memory,
    }
}
