//! The fault of a record.

ghost use Rattle.std.specs.Prelude.{◌≡◌, ◌^◌, ◌<◌};
ghost use Rattle.level_topology.specs.CountedText.{counted_of};
ghost use Rattle.level_walk.specs.View.{kind_of};
ghost use Rattle.mesh_check.specs.View.{mesh_fault_of};
ghost use Rattle.obj_tags.specs.View.{cause_of};
ghost use Rattle.table_file.specs.View as file;
ghost use Rattle.far_fault.specs.View.{fault_of, limit_cause_of, place_fault_of, track_of};
ghost use Rattle.array_answers.specs.RecordBack.{IsFaultOf};
ghost use Rattle.array_answers.specs.RecordNamed as named;
ghost use Rattle.array_answers.specs.RecordRange.{IsInRange, IsMeshInRange, IsCountInRange, IsLimitInRange, IsPlaceInRange};

use crate::record::FaultRecord;
use crate::record_table::record_of;
use far_fault::{FarFault, LimitCause, PlaceFault, Track};
use level_topology::Counted;
use level_walk::OverflowKind;
use mesh_check::MeshFault;
use obj_tags::ObjCause;
use table_file::TableCause;

// Returns the lower 32 bits of a number.
fn low(n: u64) -> u32
    ensures low { result ≡ named.low n }
    ensures range { result < 2 ^ 32 }
{
    (n % 0x1_0000_0000) as u32
}

// Returns the cause with this number, for a line of a mesh text.
fn cause_named(kind: u32) -> ObjCause
    ensures { cause_of result ≡ named.cause_named kind }
{
    match kind {
        0 => ObjCause::BadNumeral,
        1 => ObjCause::NumberRange,
        2 => ObjCause::UnknownKeyword,
        3 => ObjCause::Continuation,
        4 => ObjCause::ShortLine,
        5 => ObjCause::BadCorner,
        6 => ObjCause::IndexRange,
        7 => ObjCause::BadTag,
        8 => ObjCause::TagIndex,
        9 => ObjCause::SharpnessRange,
        10 => ObjCause::MoveIndex,
        11 => ObjCause::TooFine,
        _ => ObjCause::LongLine,
    }
}

// Returns the cause with this number, for a line of a stored table.
fn table_cause_named(kind: u32) -> TableCause
    ensures { file.cause_of result ≡ named.table_cause_named kind }
{
    match kind {
        0 => TableCause::Form,
        1 => TableCause::Range,
        2 => TableCause::Sum,
        _ => TableCause::Count,
    }
}

// Returns the track with this number.
fn track_named(n: u32) -> Track
    ensures { track_of result ≡ named.track_named n }
{
    match n {
        0 => Track::Positions,
        1 => Track::Texture,
        2 => Track::LimitRows,
        _ => Track::Patch,
    }
}

// Returns the kind of overflow with this number.
fn overflow_named(n: u32) -> OverflowKind
    ensures { kind_of result ≡ named.overflow_named n }
{
    match n {
        0 => OverflowKind::Chaikin,
        1 => OverflowKind::Transition,
        2 => OverflowKind::Denominator,
        _ => OverflowKind::Value,
    }
}

// Returns the fault of a mesh with the kind and the numbers.
fn mesh_fault_named(kind: u32, a: u32, b: u32) -> MeshFault
    ensures row { mesh_fault_of result ≡ named.mesh_fault_named kind a b }
    ensures range { IsMeshInRange (mesh_fault_of result) }
{
    match kind {
        0 => MeshFault::FaceTooSmall(a),
        1 => MeshFault::RepeatedVertex(a),
        2 => MeshFault::NonManifoldEdge(a, b),
        3 => MeshFault::WindingClash(a, b),
        _ => MeshFault::SplitVertex(a),
    }
}

// Returns the count that passes its limit, from the kind and the numbers.
fn counted_named(kind: u32, number: u64, count: u64) -> Counted
    ensures row { counted_of result ≡ named.counted_named kind number count }
    ensures range { IsCountInRange (counted_of result) }
{
    let place = low(number);
    match kind {
        0 => Counted::Points(number),
        1 => Counted::Faces(number),
        2 => Counted::FaceSize {
            face: place,
            size: count,
        },
        3 => Counted::Valence {
            vertex: place,
            count,
        },
        4 => Counted::LevelFaces {
            level: place,
            count,
        },
        5 => Counted::Entries { level: place },
        6 => Counted::LimitEntries,
        _ => Counted::PatchEntries,
    }
}

// Returns the cause of this kind that leaves a point without a limit point.
fn limit_cause_named(kind: u32, vertex: u32) -> LimitCause
    ensures row { limit_cause_of result ≡ named.limit_cause_named kind vertex }
    ensures range { IsLimitInRange (limit_cause_of result) }
{
    match kind {
        0 => LimitCause::Dart(vertex),
        _ => LimitCause::SemiSharp(vertex),
    }
}

// Returns the fault of a place with the kind and the number.
fn place_fault_named(kind: u32, number: u32) -> PlaceFault
    ensures row { place_fault_of result ≡ named.place_fault_named kind number }
    ensures range { IsPlaceInRange (place_fault_of result) }
{
    match kind {
        0 => PlaceFault::NoFace { count: number },
        1 => PlaceFault::NotRegular { face: number },
        2 => PlaceFault::NoCorner { count: number },
        _ => PlaceFault::IsHole { face: number },
    }
}

// Returns the fault that a record describes. For a record of no fault it returns a fault with another record.
fn fault_named(held: &FaultRecord) -> FarFault
    ensures row { fault_of result ≡ named.fault_named held.now }
    ensures range { IsInRange (fault_of result) }
{
    let kind = held.kind;
    let first = low(held.first);
    match held.status {
        2 => FarFault::Usage { word: first },
        3 => FarFault::Read,
        4 => FarFault::Long,
        5 => FarFault::Obj {
            line: first,
            cause: cause_named(kind),
        },
        6 => FarFault::Mesh(mesh_fault_named(kind, first, low(held.second))),
        7 => FarFault::TooLarge(counted_named(kind, held.first, held.second)),
        8 => FarFault::Overflow {
            track: track_named(kind / 4),
            level: first,
            kind: overflow_named(kind % 4),
        },
        9 => FarFault::Limit(limit_cause_named(kind, first)),
        10 => FarFault::Write,
        13 => FarFault::Place(place_fault_named(kind, first)),
        14 => FarFault::Table {
            line: first,
            cause: table_cause_named(kind),
        },
        15 => FarFault::Differs { row: first },
        16 => FarFault::Controls { count: first },
        _ => FarFault::Memory,
    }
}

/// Returns the fault that a record describes, or `None` if no fault of a run has the record. Such a record has a status or kind that does
/// not exist, a number that does not fit, or a number that its fault does not name. The statuses 17 to 19 give `None`.
pub fn fault_of_record(held: &FaultRecord) -> Option<FarFault>
    ensures { IsFaultOf held.now result }
{
    let fault = fault_named(held);
    if record_of(&fault) == *held {
        Some(fault)
    } else {
        None
    }
}
