//! The records of refused arrays and requests.

ghost use Rattle.std.specs.Prelude.{◌≡◌};
ghost use Rattle.array_answers.specs.Refused as spec;
ghost use Rattle.array_answers.specs.Rows.{bad_request};
ghost use Rattle.array_answers.specs.ArrayRecords.{row};

use crate::record::{BAD_ARGUMENT, BAD_ARRAYS, FaultRecord};
use crate::record_table::record_of;
use far_fault::FarFault;
use mesh_arrays::ArraysFault;

// A record with the status of refused arrays.
fn bad_arrays(kind: u32, place: usize) -> FaultRecord
    ensures { result ≡ row 17 kind place 0 }
{
    FaultRecord {
        status: BAD_ARRAYS,
        kind,
        first: place as u64,
        second: 0,
    }
}

/// Returns the record of a fault of arrays.
pub(crate) fn record_of_arrays(fault: &ArraysFault) -> FaultRecord
    ensures { result ≡ spec.record_of_arrays fault.now }
{
    match *fault {
        ArraysFault::Boundary => bad_arrays(13, 0),
        ArraysFault::Method => bad_arrays(14, 0),
        ArraysFault::CreaseSharpness(place) => bad_arrays(15, place),
        ArraysFault::CornerSharpness(place) => bad_arrays(16, place),
        ArraysFault::Part(bad) => FaultRecord::of_bad_part(&bad),
        ArraysFault::Memory => record_of(&FarFault::Memory),
    }
}

/// The record of a request with a number out of its range, or for a texture that the mesh does not have.
pub(crate) fn bad_request() -> FaultRecord
    ensures { result ≡ bad_request }
{
    FaultRecord {
        status: BAD_ARGUMENT,
        kind: 0,
        first: 0,
        second: 0,
    }
}

/// The record of a depth above 10.
pub(crate) fn bad_depth() -> FaultRecord
    ensures { result ≡ spec.bad_depth }
{
    bad_request()
}
