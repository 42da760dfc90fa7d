//! The line of a fault.

ghost use Rattle.std.specs.Prelude.{◌≤◌, []};
ghost use Rattle.subdiv_model.specs.Fault.{Fault, fault_line};
ghost use Rattle.array_answers.specs.RecordBack.{IsRecordOf, IsOfNone};
ghost use Rattle.array_answers.specs.RecordLines.{IsPut};

use array_answers::{FaultRecord, put_line};

/// Writes as much of the line of a fault as fits into `out`, and returns the length of the whole line. It returns 0 for a record that no
/// fault of a run has.
#[unsafe(no_mangle)]
pub extern "C" fn far_fault_line(fault: &FaultRecord, out: &mut [u8]) -> u64
    ensures line { (named : Fault) → IsRecordOf fault.now named → IsPut (fault_line named) out.old out.new result }
    ensures none { IsOfNone fault.now → IsPut [] out.old out.new result }
    ensures short { result ≤ 128 }
{
    put_line(fault, out)
}
