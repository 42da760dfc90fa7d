// Whole runs over a source that gives pieces and a sink that takes pieces. One of their calls fails.

use crate::engine::{ALL_READ, ALL_WRITTEN, NONE, expect_ended};
use crate::inputs::{
    CUBE, CUBE_LEAVES, CUBE_LEVEL, CUBE_REFINED, CURVED_PATCH, CURVED_SHEET, GEN, MOVED_SQUARE,
    MOVED_SQUARE_ANSWER, QUARTER_AND_POINTS, REFINE, SHARP_SQUARE, SHEET, SQUARE, SQUARE_AND_TABLE,
    SQUARE_LEVELS, SQUARE_LIMITS, SQUARE_TABLE, TWO_CHARTS, TWO_CHARTS_IN_DECIMALS,
    TWO_CHARTS_LEVEL,
};
use std::process::Abort;
use std::test::Fail;

pub const FAILED_READ: &str = "far: reading failed\n";

pub const FAILED_WRITE: &str = "far: writing failed\n";

// The numbers of bytes that the reads of the cube give in turn, and the number of reads: one more than pieces, since the last one finds
// the end.
type Pieces = (u32, u32, u32);

const READS: &[Pieces] = &[(1, 1, 137), (7, 7, 21), (1, 64, 7)];

fn reads() -> &'static [Pieces] {
    READS
}

fn expect_reads(rt: &(impl Abort + AllocGlobal), row: &Pieces) -> Result<(), Fail> {
    let &(first, second, calls) = row;
    let want = (3, FAILED_READ, b"".as_slice());
    for call in 0..calls {
        let calls = ((call, first, second), ALL_WRITTEN, NONE);
        expect_ended(rt, REFINE, CUBE, &calls, &want)?;
    }
    let calls = ((calls, first, second), ALL_WRITTEN, NONE);
    let want = (0, "", CUBE_REFINED.as_bytes());
    expect_ended(rt, REFINE, CUBE, &calls, &want)
}

#[test]
fn fails_at_each_read(rt: HostRuntime) -> Result<(), Fail> {
    for row in reads() {
        expect_reads(&rt, row)?;
    }
    Ok(())
}

// Words, a mesh, the number of bytes of a write, the number of calls, and the text. There is one more call than pieces, since the last one
// flushes.
type Written = (&'static str, &'static str, u32, u32, &'static str);

const WRITES: &[Written] = &[
    (REFINE, CUBE, 5, 129, CUBE_REFINED),
    ("stencils depth=1", SQUARE, 16, 12, SQUARE_TABLE),
    ("limit depth=1", SQUARE, 16, 10, SQUARE_LIMITS),
    (
        "patch depth=0 face=4 grid=2",
        CURVED_SHEET,
        16,
        12,
        CURVED_PATCH,
    ),
    ("map depth=1 face=0 grid=1", CUBE, 16, 11, CUBE_LEAVES),
    ("sparse depth=1", SHARP_SQUARE, 16, 7, SQUARE_LEVELS),
    (
        "sparse depth=0 uv=smooth",
        TWO_CHARTS,
        64,
        4,
        TWO_CHARTS_LEVEL,
    ),
    ("levels depth=0", CUBE, 16, 7, CUBE_LEVEL),
    ("verify depth=0", SQUARE_AND_TABLE, 4, 5, "table agrees 4\n"),
    ("apply", QUARTER_AND_POINTS, 4, 4, "v 1 2 1/4\n"),
    ("frames depth=1", MOVED_SQUARE, 16, 6, MOVED_SQUARE_ANSWER),
    (GEN, "", 16, 6, SHEET),
    (
        "refine depth=0 decimals=2 tags=yes",
        TWO_CHARTS,
        64,
        6,
        TWO_CHARTS_IN_DECIMALS,
    ),
];

fn writes() -> &'static [Written] {
    WRITES
}

// If a call of the sink fails, the sink has the pieces before it; else it has all.
fn expect_writes(rt: &(impl Abort + AllocGlobal), row: &Written) -> Result<(), Fail> {
    let &(words, mesh, size, calls, text) = row;
    for call in 0..calls {
        let held = text.len().min(call.saturating_mul(size) as usize);
        let held = text.as_bytes().get(..held).ok_or("the pieces")?;
        let calls = (ALL_READ, (call, size, 4096), NONE);
        expect_ended(rt, words, mesh, &calls, &(10, FAILED_WRITE, held))?;
    }
    let calls = (ALL_READ, (calls, size, 4096), NONE);
    expect_ended(rt, words, mesh, &calls, &(0, "", text.as_bytes()))
}

#[test]
fn fails_at_each_write(rt: HostRuntime) -> Result<(), Fail> {
    for row in writes() {
        expect_writes(&rt, row)?;
    }
    Ok(())
}
