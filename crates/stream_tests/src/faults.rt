// The lines and the statuses of the faults of runs.

use crate::expect::expect_same;
use crate::failing::failing_sink;
use far_fault::{
    FarFault, LimitCause, OverflowKind, PlaceFault, TableCause, Track, report, status,
};
use far_io::{SureSink, WriteFailed};
use level_topology::Counted;
use mesh_check::MeshFault;
use obj_tags::ObjCause;
use std::process::Abort;
use std::test::Fail;

// A fault, its status and its line: one of each status, and those that no small input has. `cases/` has the others.
type Fault = (FarFault, u8, &'static str);

const FAULTS: &[Fault] = &[
    (
        FarFault::Usage { word: 0 },
        2,
        "far: word 0 is not understood\n",
    ),
    (FarFault::Read, 3, "far: reading failed\n"),
    (
        FarFault::Long,
        4,
        "far: input is longer than 268435456 bytes\n",
    ),
    (
        FarFault::Obj {
            line: u32::MAX,
            cause: ObjCause::SharpnessRange,
        },
        5,
        "far: line 4294967295: sharpness out of range\n",
    ),
    (
        FarFault::Mesh(MeshFault::NonManifoldEdge(12, 4)),
        6,
        "far: edge 12 4 has more than two faces\n",
    ),
    (
        FarFault::TooLarge(Counted::Points(1048577)),
        7,
        "far: too many points: 1048577\n",
    ),
    (
        FarFault::TooLarge(Counted::Faces(4294967296)),
        7,
        "far: too many faces: 4294967296\n",
    ),
    (
        FarFault::TooLarge(Counted::FaceSize {
            face: 0,
            size: 65537,
        }),
        7,
        "far: face 0 has 65537 corners\n",
    ),
    (
        FarFault::TooLarge(Counted::Valence {
            vertex: 0,
            count: 65537,
        }),
        7,
        "far: vertex 0 has 65537 edges\n",
    ),
    (
        FarFault::TooLarge(Counted::Entries { level: 2 }),
        7,
        "far: level 2 has too many entries\n",
    ),
    (
        FarFault::TooLarge(Counted::LimitEntries),
        7,
        "far: the limit rows have too many entries\n",
    ),
    (
        FarFault::TooLarge(Counted::PatchEntries),
        7,
        "far: the patch rows have too many entries\n",
    ),
    (
        FarFault::Overflow {
            track: Track::Texture,
            level: u32::MAX,
            kind: OverflowKind::Value,
        },
        8,
        "far: texture level 4294967295: value overflow\n",
    ),
    (
        FarFault::Overflow {
            track: Track::LimitRows,
            level: 1,
            kind: OverflowKind::Denominator,
        },
        8,
        "far: limit level 1: denominator overflow\n",
    ),
    (
        FarFault::Overflow {
            track: Track::Patch,
            level: 0,
            kind: OverflowKind::Value,
        },
        8,
        "far: patch level 0: value overflow\n",
    ),
    (
        FarFault::Limit(LimitCause::Dart(0)),
        9,
        "far: vertex 0 is a dart\n",
    ),
    (
        FarFault::Limit(LimitCause::SemiSharp(u32::MAX)),
        9,
        "far: vertex 4294967295 is semi-sharp\n",
    ),
    (FarFault::Write, 10, "far: writing failed\n"),
    (FarFault::Memory, 11, "far: out of memory\n"),
    (
        FarFault::Place(PlaceFault::NoFace { count: u32::MAX }),
        13,
        "far: there are 4294967295 faces\n",
    ),
    (
        FarFault::Place(PlaceFault::NotRegular { face: 0 }),
        13,
        "far: face 0 is not a regular inner face\n",
    ),
    (
        FarFault::Place(PlaceFault::NoCorner { count: 3 }),
        13,
        "far: the face has 3 corners\n",
    ),
    (
        FarFault::Place(PlaceFault::IsHole { face: u32::MAX }),
        13,
        "far: face 4294967295 is a hole\n",
    ),
    (
        FarFault::Table {
            line: u32::MAX,
            cause: TableCause::Range,
        },
        14,
        "far: line 4294967295: table number out of range\n",
    ),
    (
        FarFault::Table {
            line: 2,
            cause: TableCause::Count,
        },
        14,
        "far: line 2: table entry count\n",
    ),
    (
        FarFault::Differs { row: u32::MAX },
        15,
        "far: row 4294967295 differs\n",
    ),
    (
        FarFault::Controls { count: u32::MAX },
        16,
        "far: 4294967295 control points given\n",
    ),
];

fn faults() -> &'static [Fault] {
    FAULTS
}

// The status of a fault, the line that `report` writes, and the text of the fault.
fn expect_reported(rt: &(impl Abort + AllocGlobal), row: &Fault) -> Result<(), Fail> {
    let (fault, number, text) = row;
    let mut errors = SureSink::with_room(rt.alloc(), 64)?;
    let answer = report(fault, &mut errors);
    let given = (status(fault), answer, errors.bytes());
    expect_same(rt, &given, &(*number, Ok(()), text.as_bytes()), row);
    Ok(())
}

fn expect_displayed(rt: &(impl Abort + AllocGlobal), row: &Fault) -> Result<(), Fail> {
    let (fault, _, text) = row;
    let line = format!(in rt.alloc(); "far: {fault}\n")?;
    expect_same(rt, &line.as_str(), text, row);
    Ok(())
}

#[test]
fn names_faults_of_runs(rt: HostRuntime) -> Result<(), Fail> {
    for row in faults() {
        expect_reported(&rt, row)?;
        expect_displayed(&rt, row)?;
    }
    Ok(())
}

// A fault, the capacity of the sink, the call that fails, the answer, and the contents of the sink. One call writes the whole line, and
// the next one flushes.
type Report = (FarFault, usize, u32, Result<(), WriteFailed>, &'static str);

const REPORTS: &[Report] = &[
    (FarFault::Read, 64, 0, Err(WriteFailed), ""),
    (
        FarFault::Read,
        64,
        1,
        Err(WriteFailed),
        "far: reading failed\n",
    ),
    (FarFault::Read, 64, 2, Ok(()), "far: reading failed\n"),
    (
        FarFault::Usage { word: 1 },
        9,
        9,
        Err(WriteFailed),
        "far: word",
    ),
    (
        FarFault::Usage { word: 1 },
        64,
        1,
        Err(WriteFailed),
        "far: word 1 is not understood\n",
    ),
    (
        FarFault::Usage { word: 1 },
        64,
        2,
        Ok(()),
        "far: word 1 is not understood\n",
    ),
];

fn reports() -> &'static [Report] {
    REPORTS
}

fn expect_report(rt: &(impl Abort + AllocGlobal), row: &Report) -> Result<(), Fail> {
    let &(fault, room, call, answer, held) = row;
    let mut errors = failing_sink(rt.alloc(), room, call)?;
    let given = (report(&fault, &mut errors), errors.bytes());
    expect_same(rt, &given, &(answer, held.as_bytes()), row);
    Ok(())
}

#[test]
fn reports_what_fails(rt: HostRuntime) -> Result<(), Fail> {
    for row in reports() {
        expect_report(&rt, row)?;
    }
    Ok(())
}
