//! Laws of faults and their records.

ghost use Rattle.std.specs.Prelude.{ℕ, ◌≡◌, ◌≤◌, Option, Some, option_map};
ghost use Rattle.far_fault.specs.declared.fault.FarFault.{FarFault};
ghost use Rattle.far_fault.specs.View.{fault_of};
ghost use Rattle.nearest_float.specs.declared.fault.FloatFault.{FloatFault};
ghost use Rattle.raw_mesh.specs.declared.fault.BadPart.{BadPart};
ghost use Rattle.subdiv_model.specs.Fault.{Fault};
ghost use Rattle.array_answers.specs.ArrayRecords.{record_of_bad_part, record_of_bad_number};
ghost use Rattle.array_answers.specs.RecordBack.{IsFaultOf, IsRecordOf};
ghost use Rattle.array_answers.specs.RecordRange.{IsInRange};
ghost use Rattle.array_answers.specs.RecordTable.{record_of};
ghost use Rattle.array_answers.specs.declared.record.FaultRecord.{FaultRecord};

/// A record describes at most one fault.
pub fn records_name_one_fault()
    ensures { (held : FaultRecord) (a b : Fault) → IsRecordOf held a → IsRecordOf held b → a ≡ b }
{}

/// A fault comes back from its record.
pub fn faults_come_back()
    ensures { (fault : Fault) (back : Option FarFault) → IsInRange fault → IsFaultOf (record_of fault) back → option_map fault_of back ≡ Some fault }
{}

/// No fault has the status of a call that did what it says, which is 0, or that found an array too short, which is 1.
pub fn faults_have_other_statuses()
    ensures run { (fault : Fault) → 2 ≤ (record_of fault).status }
    ensures part { (bad : BadPart) → 2 ≤ (record_of_bad_part bad).status }
    ensures number { (place : ℕ) (fault : FloatFault) → 2 ≤ (record_of_bad_number place fault).status }
{}
