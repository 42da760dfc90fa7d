//! The status of a call.

ghost use Rattle.std.specs.Prelude.{◌≡◌, ◌≤◌, ◌<◌, if◌then◌else◌};
ghost use Rattle.far_fault.specs.View.{fault_of};
ghost use Rattle.array_answers.specs.ArrayRecords.{row};
ghost use Rattle.array_answers.specs.RecordBack.{IsRecordOf};

use array_answers::{DONE, FaultRecord, TOO_SHORT, record_of};
use far_fault::FarFault;

// The status after writing into arrays, or for an array that is too short.
pub(crate) fn written(done: bool) -> u32
    ensures status { result ≡ (if done then 0 else 1) }
    ensures few { result < 2 }
{
    if done { DONE } else { TOO_SHORT }
}

// The record of a fault of a run. Its status is none of those of a call that is not refused.
pub(crate) fn refused(fault: &FarFault) -> FaultRecord
    ensures numbers { IsRecordOf result (fault_of fault.now) }
    ensures status { 2 ≤ result.status }
{
    record_of(fault)
}

// The record of a fault with one number.
pub(crate) fn record(status: u32, kind: u32, first: u64) -> FaultRecord
    ensures { result ≡ row status kind first 0 }
{
    FaultRecord {
        status,
        kind,
        first,
        second: 0,
    }
}
