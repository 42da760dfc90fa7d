//! Faults as records, their lines in bytes, and faults back from their records.

use array_answers::{FaultRecord, fault_of_record, put_line, put_mesh_faults, record_of};
use far_fault::{FarFault, LimitCause, OverflowKind, PlaceFault, TableCause, Track};
use level_topology::Counted;
use mesh_check::MeshFault;
use nearest_float::FloatFault;
use obj_tags::ObjCause;
use raw_mesh::BadPart;

// A fault, its status, its kind, its two numbers, and its line.
type Fault = (FarFault, (u32, u32, u64, u64), &'static str);

const FAULTS: &[Fault] = &[
    (
        FarFault::Usage { word: 3 },
        (2, 0, 3, 0),
        "far: word 3 is not understood\n",
    ),
    (FarFault::Read, (3, 0, 0, 0), "far: reading failed\n"),
    (
        FarFault::Long,
        (4, 0, 0, 0),
        "far: input is longer than 268435456 bytes\n",
    ),
    (
        FarFault::Obj {
            line: 4294967295,
            cause: ObjCause::SharpnessRange,
        },
        (5, 9, 4294967295, 0),
        "far: line 4294967295: sharpness out of range\n",
    ),
    (
        FarFault::Obj {
            line: 1,
            cause: ObjCause::LongLine,
        },
        (5, 12, 1, 0),
        "far: line 1: line too long\n",
    ),
    (
        FarFault::Mesh(MeshFault::NonManifoldEdge(12, 4)),
        (6, 2, 12, 4),
        "far: edge 12 4 has more than two faces\n",
    ),
    (
        FarFault::Mesh(MeshFault::SplitVertex(7)),
        (6, 4, 7, 0),
        "far: vertex 7 joins more than one fan\n",
    ),
    (
        FarFault::TooLarge(Counted::Faces(18446744073709551615)),
        (7, 1, 18446744073709551615, 0),
        "far: too many faces: 18446744073709551615\n",
    ),
    (
        FarFault::TooLarge(Counted::LevelFaces {
            level: 9,
            count: 25165824,
        }),
        (7, 4, 9, 25165824),
        "far: level 9 has 25165824 faces\n",
    ),
    (
        FarFault::TooLarge(Counted::PatchEntries),
        (7, 7, 0, 0),
        "far: the patch rows have too many entries\n",
    ),
    (
        FarFault::Overflow {
            track: Track::LimitRows,
            level: 6,
            kind: OverflowKind::Value,
        },
        (8, 11, 6, 0),
        "far: limit level 6: value overflow\n",
    ),
    (
        FarFault::Overflow {
            track: Track::Texture,
            level: 2,
            kind: OverflowKind::Chaikin,
        },
        (8, 4, 2, 0),
        "far: texture level 2: chaikin overflow\n",
    ),
    (
        FarFault::Limit(LimitCause::SemiSharp(5)),
        (9, 1, 5, 0),
        "far: vertex 5 is semi-sharp\n",
    ),
    (FarFault::Write, (10, 0, 0, 0), "far: writing failed\n"),
    (FarFault::Memory, (11, 0, 0, 0), "far: out of memory\n"),
    (
        FarFault::Place(PlaceFault::NotRegular { face: 16 }),
        (13, 1, 16, 0),
        "far: face 16 is not a regular inner face\n",
    ),
    (
        FarFault::Table {
            line: 15,
            cause: TableCause::Sum,
        },
        (14, 2, 15, 0),
        "far: line 15: table row does not sum\n",
    ),
    (
        FarFault::Differs { row: 0 },
        (15, 0, 0, 0),
        "far: row 0 differs\n",
    ),
    (
        FarFault::Controls { count: 1 },
        (16, 0, 1, 0),
        "far: 1 control points given\n",
    ),
];

fn faults() -> &'static [Fault] {
    FAULTS
}

fn record(status: u32, kind: u32, first: u64, second: u64) -> FaultRecord {
    FaultRecord {
        status,
        kind,
        first,
        second,
    }
}

// The line of a record is at the front of the bytes, and the byte behind it stays.
#[test]
fn faults_come_back_from_their_records(rt: HostRuntime) {
    for row in faults() {
        let &(fault, (status, kind, first, second), text) = row;
        let kept = record(status, kind, first, second);
        assert_eq!(rt; record_of(&fault), kept);
        assert_eq!(rt; fault_of_record(&kept), Some(fault));
        let mut out = [7u8; 128];
        let len = put_line(&kept, &mut out) as usize;
        assert_eq!(rt; out.get(..len), Some(text.as_bytes()));
        assert_eq!(rt; out.get(len), Some(&7));
    }
}

#[test]
fn a_line_is_cut_where_there_is_no_room(rt: HostRuntime) {
    let memory = record_of(&FarFault::Memory);
    let mut out = [b'.'; 8];
    assert_eq!(rt; put_line(&memory, &mut out), 19);
    assert_eq!(rt; out, *b"far: out");
    assert_eq!(rt; put_line(&memory, &mut []), 19);
}

// Numbers of records that no fault has.
const STRANGE: &[(u32, u32, u64, u64)] = &[
    (0, 0, 0, 0),
    (1, 0, 0, 0),
    (12, 0, 0, 0),
    (17, 0, 0, 0),
    (2, 1, 0, 0),
    (2, 0, 4294967296, 0),
    (3, 0, 1, 0),
    (5, 13, 1, 0),
    (6, 5, 0, 0),
    (6, 2, 0, 4294967296),
    (7, 5, 0, 1),
    (8, 16, 1, 0),
    (9, 2, 0, 0),
    (13, 4, 0, 0),
    (14, 4, 1, 0),
    (4294967295, 0, 0, 0),
];

fn strange() -> &'static [(u32, u32, u64, u64)] {
    STRANGE
}

#[test]
fn other_records_are_of_no_fault(rt: HostRuntime) {
    for row in strange() {
        let &(status, kind, first, second) = row;
        let kept = record(status, kind, first, second);
        assert_eq!(rt; fault_of_record(&kept), None);
        let mut out = [7u8; 4];
        assert_eq!(rt; put_line(&kept, &mut out), 0);
        assert_eq!(rt; out, [7; 4]);
    }
}

#[test]
fn arrays_and_floats_have_records(rt: HostRuntime) {
    let crease = FaultRecord::of_bad_part(&BadPart::Crease(6));
    assert_eq!(rt; crease, record(17, 10, 6, 0));
    let sizes = FaultRecord::of_bad_part(&BadPart::FaceSizes);
    assert_eq!(rt; sizes, record(17, 6, 0, 0));
    let wide = FaultRecord::of_bad_number(5, FloatFault::TooWide);
    assert_eq!(rt; wide, record(18, 1, 5, 0));
}

#[test]
fn records_of_mesh_faults_fill_the_front(rt: HostRuntime) {
    let faults = [MeshFault::FaceTooSmall(6), MeshFault::NonManifoldEdge(4, 1)];
    let old = record(9, 9, 9, 9);
    let mut out = [old; 3];
    assert!(rt; !put_mesh_faults(&faults, &mut out[..1]));
    assert_eq!(rt; out, [old; 3]);
    assert!(rt; put_mesh_faults(&faults, &mut out));
    assert_eq!(rt; out, [record(6, 0, 6, 0), record(6, 2, 4, 1), old]);
}
