// OBJ texts: their faults, and the mesh that one gives.

use crate::expect::expect_same;
use obj_tags::{ObjCause, ObjFault, ReadFault, read_obj};
use obj_text::NumeralFault;
use ratio128::Point3;
use raw_mesh::{BadPart, PartsFault};
use sharpness_rules::SharpOverflow;
use std::process::Abort;
use std::test::Fail;

// The bad line with its cause, or none if the text is a mesh.
fn fault_of(rt: &(impl Abort + AllocGlobal), text: &[u8]) -> Result<Option<(u32, ObjCause)>, Fail> {
    assert!(rt; text.len() < 1000);
    match read_obj(rt.alloc(), text, 0) {
        Ok(_) => Ok(None),
        Err(ReadFault::Obj(fault)) => Ok(Some((fault.line, fault.cause))),
        Err(ReadFault::Memory) => Err(Fail::from(ReadFault::Memory)),
    }
}

// Texts, each with its bad line and the cause, or none if it is a mesh.
const FAULTS: &[(&'static str, Option<(u32, ObjCause)>)] = &[
    ("v 1 2 z\n", Some((1, ObjCause::BadNumeral))),
    ("v 1 2 3 4 x", Some((1, ObjCause::BadNumeral))),
    ("\n# x\nv 1 2\n", Some((3, ObjCause::ShortLine))),
    ("vt", Some((1, ObjCause::ShortLine))),
    ("f # 1 2 3", Some((1, ObjCause::ShortLine))),
    ("t crease", Some((1, ObjCause::ShortLine))),
    ("v x", Some((1, ObjCause::ShortLine))),
    ("v 1e37 0 0", Some((1, ObjCause::NumberRange))),
    ("v 1e36 0 0\nv 0.1 0 0", Some((1, ObjCause::NumberRange))),
    (
        "vt 0.1\nv 0 0 0\nvt 1e36\n",
        Some((3, ObjCause::NumberRange)),
    ),
    ("x 1 \\", Some((1, ObjCause::Continuation))),
    ("V 1 2 3", Some((1, ObjCause::UnknownKeyword))),
    ("v 0 0 0\nf 1 2/\n", Some((2, ObjCause::BadCorner))),
    (
        "v 0 0 0\nvt 0\nf 1/1 1/1/\n",
        Some((3, ObjCause::BadCorner)),
    ),
    ("v 0 0 0\nvt 0\nf 1//1 1/1", Some((3, ObjCause::BadCorner))),
    ("v 0 0 0\nvt 0\nf 1/1/x", Some((3, ObjCause::BadCorner))),
    ("v 0 0 0\nf 1 2/2/3/4", Some((2, ObjCause::BadCorner))),
    ("v 0 0 0\nf 0/x", Some((2, ObjCause::BadCorner))),
    ("v 0 0 0\nf 1 -2\nv 0 0 0", Some((2, ObjCause::IndexRange))),
    ("v 0 0 0\nf 1 -0", Some((2, ObjCause::IndexRange))),
    ("v 0 0 0\nf 1/1", Some((2, ObjCause::IndexRange))),
    ("t creases 2/1/0 0 1 1", Some((1, ObjCause::BadTag))),
    ("t crease 1/1/0 0 1", Some((1, ObjCause::BadTag))),
    ("t hole 1/0/0/0 0", Some((1, ObjCause::BadTag))),
    ("t interpolateboundary 1/0/0 3", Some((1, ObjCause::BadTag))),
    ("t creasemethod 0/0/1 loop", Some((1, ObjCause::BadTag))),
    ("v 0 0 0\nt corner 1/1/0 1 x", Some((2, ObjCause::TagIndex))),
    ("v 0 0 0\nt hole 1/0/0 0", Some((2, ObjCause::TagIndex))),
    (
        "t corner 1/1/0 0 -1\nv 0 0 0",
        Some((1, ObjCause::SharpnessRange)),
    ),
    (
        "t corner 1/1/0 0 0.0000001\nv 0 0 0",
        Some((1, ObjCause::SharpnessRange)),
    ),
    ("", None),
    ("\u{FEFF}v 1 2 3", None),
    (" \t\r\n# x\n#\\\nv 0 0 0 # \\", None),
    ("t hole 1/0/0 0\nf 1//7 2//0\nv 1 2 3\nv 1 2 3", None),
    ("t facevaryingpropagatecorners 1/0/1 x y\nvn x", None),
    ("v 0 0 0\nt corner 1/1/0 0 10.0000001", None),
    ("v 0 0 0\nt corner 1/1/0 -0 0.0000010", None),
    ("v 1e36 0 0 0.1", None),
    ("v 1/0 0 0", Some((1, ObjCause::BadNumeral))),
    ("v 1/30 0 0\nv 1e36 0 0", Some((2, ObjCause::NumberRange))),
    ("v 1/9 0 0\nv 1e36 0 1/3", None),
    (
        "v 1e36 0 0\nv 1/9999999999999999999999999999999999999 0 0\nv 1/2 0 0\nv 1/2 0 0",
        Some((3, ObjCause::NumberRange)),
    ),
    (
        "vt 1/9999999999999999999999999999999999999\nv 1/2 0 0",
        None,
    ),
    (
        "vt 1/30\nv 1/9999999999999999999999999999999999999 0 0\nvt 1e36\nv 1/2 0 0",
        Some((3, ObjCause::NumberRange)),
    ),
    (
        "v 0 0 0\nt corner 1/1/0 0 1/1000001",
        Some((2, ObjCause::SharpnessRange)),
    ),
    (
        "v 0 0 0\nt corner 1/1/0 0 -1/3",
        Some((2, ObjCause::SharpnessRange)),
    ),
    ("v 0 0 0\nt corner 1/1/0 0 3/3000000", None),
    ("v 0 0 0\nt corner 1/1/0 0 10000010/1000001", None),
];

fn faults() -> &'static [(&'static str, Option<(u32, ObjCause)>)] {
    FAULTS
}

#[test]
fn names_the_line_and_the_cause(rt: HostRuntime) -> Result<(), Fail> {
    for row in faults() {
        let &(text, want) = row;
        expect_same(&rt, &fault_of(&rt, text.as_bytes())?, &want, row);
    }
    Ok(())
}

// A point of a fraction, a whole number and a decimal, over a multiple of 10^2.
#[test]
fn keeps_points_over_a_multiple_of_a_power_of_ten(rt: HostRuntime) -> Result<(), Fail> {
    let mesh = read_obj(rt.alloc(), b"v 1/3 0 0.125", 2)?;
    let point = Point3 {
        x: 200,
        y: 0,
        z: 75,
    };
    let given = (mesh.scale(), mesh.points().first());
    expect_same(&rt, &given, &(600, Some(&point)), &"a point");
    Ok(())
}

#[test]
fn names_faults(rt: HostRuntime) -> Result<(), Fail> {
    let fault = ReadFault::Obj(ObjFault {
        line: 3,
        cause: ObjCause::ShortLine,
    });
    let text = format!(in rt.alloc();
        "{}; {}; {SharpOverflow}; {fault}; {}; {}; {}; {}",
        NumeralFault::BadNumeral,
        NumeralFault::NumberRange,
        ReadFault::Memory,
        PartsFault::Bad(BadPart::Corner(2)),
        BadPart::TextureScale,
        PartsFault::Memory
    )?;
    let want =
        "bad numeral; number out of range; a denominator passes 2^60; line 3: line too short; out of memory; \
        corner 2 names no point; the scale of the texture values is not from 1 to 10^37; out of memory";
    expect_same(&rt, &text.as_str(), &want, &"faults");
    Ok(())
}
