//! The record of a fault, and the statuses that no run of the program has.

ghost use Rattle.std.specs.Prelude.{◌≡◌};
ghost use Rattle.array_answers.specs.ArrayRecords as arrays;

use nearest_float::FloatFault;
use raw_mesh::BadPart;

/// The status of a call that succeeded.
pub const DONE: u32 = 0;

/// The status of a call with too short an array. A call that returns counts has written them.
pub const TOO_SHORT: u32 = 1;

/// The status of refused arrays. For a mesh the kind is the number of the variant of `BadPart`, counted from 0, or 13 to 16 for its
/// options and tags. It is 17 for a row of a table and 18 for a denominator. The first number is the place in the array, counted from 0,
/// if the fault has one.
pub const BAD_ARRAYS: u32 = 17;

/// The status of a list with a refused number. The kind is 0 for a number that is not finite, and 1 for a fraction that is too wide. The
/// first number is the place in the list, counted from 0.
pub const BAD_NUMBER: u32 = 18;

/// The status of a call with an option out of its range, or that asks for the texture of a mesh without one. The kind is 1 for a range of
/// rows, else 0.
pub const BAD_ARGUMENT: u32 = 19;

/// A fault as four numbers, in the layout of a C struct. A kind or number that the fault does not have is 0.
#[repr(C)]
#[derive(Clone, Copy, Debug, PartialEq, Eq)]
pub struct FaultRecord {
    /// The exit status of a run with this fault, 2 to 11 or 13 to 16, or one of the constants of this crate.
    pub status: u32,
    /// The kind of the fault among those with the same status, counted from 0. For status 8 it is 4 times the track plus the kind of
    /// overflow, both in the order of their variants. It is 16 for the sum of a row.
    pub kind: u32,
    /// The first number that the fault names. A count is the first number only if the fault names no face, vertex or level.
    pub first: u64,
    /// The second number that the fault names: the other end of an edge, or a count.
    pub second: u64,
}

impl FaultRecord {
    /// Returns the record of a refused part of a mesh. Its status is `BAD_ARRAYS`.
    pub fn of_bad_part(bad: &BadPart) -> FaultRecord
        ensures { result ≡ arrays.record_of_bad_part bad.now }
    {
        match *bad {
            BadPart::PointScale => bad_arrays(0, 0),
            BadPart::TextureScale => bad_arrays(1, 0),
            BadPart::Point(place) => bad_arrays(2, place),
            BadPart::TextureValue(place) => bad_arrays(3, place),
            BadPart::FaceCount => bad_arrays(4, 0),
            BadPart::CornerCount => bad_arrays(5, 0),
            BadPart::FaceSizes => bad_arrays(6, 0),
            BadPart::TextureCornerCount => bad_arrays(7, 0),
            BadPart::Corner(place) => bad_arrays(8, place),
            BadPart::TextureCorner(place) => bad_arrays(9, place),
            BadPart::Crease(place) => bad_arrays(10, place),
            BadPart::CornerTag(place) => bad_arrays(11, place),
            BadPart::Hole(place) => bad_arrays(12, place),
        }
    }

    /// Returns the record of a refused float. Its status is `BAD_NUMBER`; `place` is counted from 0.
    pub fn of_bad_number(place: usize, fault: FloatFault) -> FaultRecord
        ensures { result ≡ arrays.record_of_bad_number place fault }
    {
        match fault {
            FloatFault::NotFinite => bad_number(0, place),
            FloatFault::TooWide => bad_number(1, place),
        }
    }
}

// Returns the record of refused arrays.
fn bad_arrays(kind: u32, place: usize) -> FaultRecord
    ensures { result ≡ arrays.row 17 kind place 0 }
{
    FaultRecord {
        status: BAD_ARRAYS,
        kind,
        first: place as u64,
        second: 0,
    }
}

// Returns the record of a refused float.
fn bad_number(kind: u32, place: usize) -> FaultRecord
    ensures { result ≡ arrays.row 18 kind place 0 }
{
    FaultRecord {
        status: BAD_NUMBER,
        kind,
        first: place as u64,
        second: 0,
    }
}
