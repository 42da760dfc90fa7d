//! The record of each fault.

ghost use Rattle.std.specs.Prelude.{◌≡◌, ◌*◌, ◌+◌};
ghost use Rattle.subdiv_model.specs.Fault.{fault_status};
ghost use Rattle.level_topology.specs.CountedText.{counted_of};
ghost use Rattle.level_walk.specs.View.{kind_of};
ghost use Rattle.mesh_check.specs.View.{mesh_fault_of};
ghost use Rattle.obj_tags.specs.View.{cause_of};
ghost use Rattle.table_file.specs.View as file;
ghost use Rattle.far_fault.specs.View.{fault_of, limit_cause_of, place_fault_of, track_of};
ghost use Rattle.array_answers.specs.ArrayRecords.{row};
ghost use Rattle.array_answers.specs.RecordBack.{IsRecordOf};
ghost use Rattle.array_answers.specs.RecordRange.{IsMeshInRange, IsCountInRange, IsLimitInRange, IsPlaceInRange};
ghost use Rattle.array_answers.specs.RecordTable as spec;

use crate::record::FaultRecord;
use far_fault::{FarFault, LimitCause, PlaceFault, Track};
use level_topology::Counted;
use level_walk::OverflowKind;
use mesh_check::MeshFault;
use obj_tags::ObjCause;
use table_file::TableCause;

// Returns the number of a cause for a line of a mesh text.
fn cause_kind(cause: ObjCause) -> u32
    ensures { result ≡ spec.cause_kind (cause_of cause) }
{
    match cause {
        ObjCause::BadNumeral => 0,
        ObjCause::NumberRange => 1,
        ObjCause::UnknownKeyword => 2,
        ObjCause::Continuation => 3,
        ObjCause::ShortLine => 4,
        ObjCause::BadCorner => 5,
        ObjCause::IndexRange => 6,
        ObjCause::BadTag => 7,
        ObjCause::TagIndex => 8,
        ObjCause::SharpnessRange => 9,
        ObjCause::MoveIndex => 10,
        ObjCause::TooFine => 11,
        ObjCause::LongLine => 12,
    }
}

// Returns the number of a cause for a line of a stored table.
fn table_cause_kind(cause: TableCause) -> u32
    ensures { result ≡ spec.table_cause_kind (file.cause_of cause) }
{
    match cause {
        TableCause::Form => 0,
        TableCause::Range => 1,
        TableCause::Sum => 2,
        TableCause::Count => 3,
    }
}

// Returns the kind of a record for an overflow: 4 times the track plus the kind of the overflow.
fn overflow_kind(track: Track, kind: OverflowKind) -> u32
    ensures { result ≡ 4 * spec.track_number (track_of track) + spec.overflow_number (kind_of kind) }
{
    4 * track_number(track) + overflow_number(kind)
}

// Returns the number of a track, which is below 4.
fn track_number(track: Track) -> u32
    ensures { result ≡ spec.track_number (track_of track) }
{
    match track {
        Track::Positions => 0,
        Track::Texture => 1,
        Track::LimitRows => 2,
        Track::Patch => 3,
    }
}

// Returns the number of a kind of overflow, which is below 4.
fn overflow_number(kind: OverflowKind) -> u32
    ensures { result ≡ spec.overflow_number (kind_of kind) }
{
    match kind {
        OverflowKind::Chaikin => 0,
        OverflowKind::Transition => 1,
        OverflowKind::Denominator => 2,
        OverflowKind::Value => 3,
    }
}

// Returns the record of these numbers.
fn record(status: u32, kind: u32, first: u64, second: u64) -> FaultRecord
    ensures { result ≡ row status kind first second }
{
    FaultRecord {
        status,
        kind,
        first,
        second,
    }
}

// Returns the record of a fault with one number of 32 bits.
fn about(status: u32, kind: u32, number: u32) -> FaultRecord
    ensures { result ≡ row status kind number 0 }
{
    record(status, kind, u64::from(number), 0)
}

// Returns the record of a fault of a mesh.
pub(crate) fn mesh_record(fault: MeshFault) -> FaultRecord
    ensures row { result ≡ spec.mesh_record (mesh_fault_of fault) }
    ensures range { IsMeshInRange (mesh_fault_of fault) }
{
    match fault {
        MeshFault::FaceTooSmall(face) => about(6, 0, face),
        MeshFault::RepeatedVertex(face) => about(6, 1, face),
        MeshFault::NonManifoldEdge(a, b) => record(6, 2, u64::from(a), u64::from(b)),
        MeshFault::WindingClash(a, b) => record(6, 3, u64::from(a), u64::from(b)),
        MeshFault::SplitVertex(v) => about(6, 4, v),
    }
}

// Returns the record of a count that passes its limit.
fn counted_record(counted: Counted) -> FaultRecord
    ensures row { result ≡ spec.counted_record (counted_of counted) }
    ensures range { IsCountInRange (counted_of counted) }
{
    match counted {
        Counted::Points(count) => record(7, 0, count, 0),
        Counted::Faces(count) => record(7, 1, count, 0),
        Counted::FaceSize { face, size } => record(7, 2, u64::from(face), size),
        Counted::Valence { vertex, count } => record(7, 3, u64::from(vertex), count),
        Counted::LevelFaces { level, count } => record(7, 4, u64::from(level), count),
        Counted::Entries { level } => about(7, 5, level),
        Counted::LimitEntries => about(7, 6, 0),
        Counted::PatchEntries => about(7, 7, 0),
    }
}

// Returns the record of a point without a limit point.
fn limit_record(cause: LimitCause) -> FaultRecord
    ensures row { result ≡ spec.limit_record (limit_cause_of cause) }
    ensures range { IsLimitInRange (limit_cause_of cause) }
{
    match cause {
        LimitCause::Dart(v) => about(9, 0, v),
        LimitCause::SemiSharp(v) => about(9, 1, v),
    }
}

// Returns the record of a place without a patch or leaf.
fn place_record(fault: PlaceFault) -> FaultRecord
    ensures row { result ≡ spec.place_record (place_fault_of fault) }
    ensures range { IsPlaceInRange (place_fault_of fault) }
{
    match fault {
        PlaceFault::NoFace { count } => about(13, 0, count),
        PlaceFault::NotRegular { face } => about(13, 1, face),
        PlaceFault::NoCorner { count } => about(13, 2, count),
        PlaceFault::IsHole { face } => about(13, 3, face),
    }
}

/// Returns the record of a fault: the exit status of a run with it, its kind among the faults with that status, and its numbers. The
/// definition `record_of` in `crates/array_answers/specs/RecordTable.antt` lists them all.
pub fn record_of(fault: &FarFault) -> FaultRecord
    ensures numbers { IsRecordOf result (fault_of fault.now) }
    ensures status { result.status ≡ fault_status (fault_of fault.now) }
{
    match *fault {
        FarFault::Usage { word } => about(2, 0, word),
        FarFault::Read => about(3, 0, 0),
        FarFault::Long => about(4, 0, 0),
        FarFault::Obj { line, cause } => about(5, cause_kind(cause), line),
        FarFault::Mesh(fault) => mesh_record(fault),
        FarFault::TooLarge(counted) => counted_record(counted),
        FarFault::Overflow { track, level, kind } => about(8, overflow_kind(track, kind), level),
        FarFault::Limit(cause) => limit_record(cause),
        FarFault::Write => about(10, 0, 0),
        FarFault::Memory => about(11, 0, 0),
        FarFault::Place(fault) => place_record(fault),
        FarFault::Table { line, cause } => about(14, table_cause_kind(cause), line),
        FarFault::Differs { row } => about(15, 0, row),
        FarFault::Controls { count } => about(16, 0, count),
    }
}
