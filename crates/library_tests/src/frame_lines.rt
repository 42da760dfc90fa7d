// Lines of `frames`, each with its request or the cause of its refusal.

use crate::expect::expect_same;
use obj_tags::ObjCause;
use obj_tags::ObjCause::{BadNumeral, MoveIndex, NumberRange, ShortLine, TooFine, UnknownKeyword};
use ratio128::Point3;
use table_answers::FrameLine::{Empty, Go};
use table_answers::{FrameLine, read_frame_line};

// Ten to the 37, the greatest common denominator.
const TENS: u128 = 10_000_000_000_000_000_000_000_000_000_000_000_000;

// The greatest numerator.
const MOST: i128 = 9_999_999_999_999_999_999_999_999_999_999_999_999;

// A move of this control point to these numerators.
macro_rules! moved {
    ($index:literal, $x:expr, $y:expr, $z:expr) => {
        Ok(FrameLine::Move { index: $index, point: Point3 { x: $x, y: $y, z: $z } })
    };
}

// A line, the common denominator, and the request, if there are four control points.
type Line = (&'static str, u128, Result<FrameLine, ObjCause>);

const LINES: &[Line] = &[
    ("move 2 8 8 0", 1, moved!(2, 8, 8, 0)),
    ("  move\t3 -1 +2 0 # more", 1, moved!(3, -1, 2, 0)),
    ("move 1 0.5 0 0", 10, moved!(1, 5, 0, 0)),
    ("move 1 0.5 0 0", 2, moved!(1, 1, 0, 0)),
    ("move 03 0.50 -1/4 1e1\r", 100, moved!(3, 50, -25, 1000)),
    ("move 0 2/6 10/5 -4/3", 3, moved!(0, 1, 6, -4)),
    ("move 0 1 2 3 a 1e37", 1, moved!(0, 1, 2, 3)),
    (
        "move 0000000000000000000000000000000000000000000002 0 0 0",
        1,
        moved!(2, 0, 0, 0),
    ),
    (
        "move 0 1e-37 0 .9999999999999999999999999999999999999",
        TENS,
        moved!(0, 1, 0, MOST),
    ),
    (
        "move 0 -9999999999999999999999999999999999999 0 0",
        1,
        moved!(0, -MOST, 0, 0),
    ),
    ("", 1, Ok(Empty)),
    (" \t\r", 1, Ok(Empty)),
    ("#", 1, Ok(Empty)),
    ("# go", 1, Ok(Empty)),
    (" #move 9", 1, Ok(Empty)),
    ("go", 1, Ok(Go)),
    ("\tgo on\r", 1, Ok(Go)),
    ("go # move", 1, Ok(Go)),
    ("v 0 0 0", 1, Err(UnknownKeyword)),
    ("frames", 1, Err(UnknownKeyword)),
    ("MOVE 0 0 0 0", 1, Err(UnknownKeyword)),
    ("moved 0 0 0 0", 1, Err(UnknownKeyword)),
    ("mov", 1, Err(UnknownKeyword)),
    ("gone", 1, Err(UnknownKeyword)),
    ("move", 1, Err(ShortLine)),
    ("move 0 1 1", 1, Err(ShortLine)),
    ("move a 9 9 # 9", 1, Err(ShortLine)),
    ("move -1 a 0 0", 1, Err(BadNumeral)),
    ("move +1 0 0 0", 1, Err(BadNumeral)),
    ("move 1.0 0 0 0", 1, Err(BadNumeral)),
    ("move 9x 0 0 0", 1, Err(BadNumeral)),
    ("move 4 a 0 0", 1, Err(MoveIndex)),
    ("move 4294967296 0 0 0", 1, Err(MoveIndex)),
    (
        "move 340282366920938463463374607431768211456 a 0 0",
        1,
        Err(MoveIndex),
    ),
    ("move 3 a 0.5 0", 1, Err(BadNumeral)),
    ("move 3 0.5 a 0", 1, Err(TooFine)),
    ("move 3 0 1e37 0.5", 1, Err(NumberRange)),
    ("move 3 0 0.5 1e37", 1, Err(TooFine)),
    ("move 03 0 0 1e37 more", 1, Err(NumberRange)),
    ("move 3 1/3 0 0", 100, Err(TooFine)),
    ("move 3 0 0.125 0", 100, Err(TooFine)),
    ("move 3 0 0 -0.5", 5, Err(TooFine)),
    ("move 3 1e36 0 0", 10, Err(NumberRange)),
    ("move 3 a 1e36 0", 10, Err(BadNumeral)),
    ("move 3 1 a 0", TENS, Err(NumberRange)),
];

fn lines() -> &'static [Line] {
    LINES
}

#[test]
fn reads_lines(rt: HostRuntime) {
    for row in lines() {
        let &(line, common, want) = row;
        assert!(rt; common <= TENS);
        let read = read_frame_line(line.as_bytes(), 4, common);
        expect_same(&rt, &read, &want, row);
    }
    let none = read_frame_line(b"move 0 0 0 0", 0, 1);
    expect_same(&rt, &none, &Err(MoveIndex), &"no control point");
}
