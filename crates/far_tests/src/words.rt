// The words of a command line: the commands that they spell, and the places of bad words.

use crate::engine::words_of;
use crate::expect::expect_same;
use far_words::{
    By, Command, FramesOptions, GenOptions, LimitOptions, MakeCommand, MapOptions, PatchOptions,
    ReadCommand, RefineOptions, Select, SparseOptions, SparseUv, StoredCommand, StreamCommand, Uv,
    read_words,
};
use std::process::Abort;
use std::test::Fail;

// `refine` with these options.
macro_rules! refine {
    ($depth:literal, $decimals:expr, $uv:ident, $by:ident, $tags:literal) => {
        Ok(Command::Read(ReadCommand::Refine(RefineOptions {
            depth: $depth,
            decimals: $decimals,
            uv: Uv::$uv,
            by: By::$by,
            tags: $tags,
        })))
    };
}

// `sparse` with these options.
macro_rules! sparse {
    ($depth:literal, $select:ident, $decimals:expr, $uv:ident) => {
        Ok(Command::Read(ReadCommand::Sparse(SparseOptions {
            depth: $depth,
            select: Select::$select,
            decimals: $decimals,
            uv: SparseUv::$uv,
        })))
    };
}

// Limit points with these options.
macro_rules! limit {
    ($depth:literal, $decimals:expr) => {
        Ok(Command::Read(ReadCommand::Limit(LimitOptions { depth: $depth, decimals: $decimals })))
    };
}

// The patch of a face at a depth, on a grid.
macro_rules! patch {
    ($depth:literal, $face:literal, $grid:literal) => {
        Ok(Command::Read(ReadCommand::Patch(PatchOptions { depth: $depth, face: $face, grid: $grid })))
    };
}

// The leaves of the places of a face on a grid, with faces selected to a depth.
macro_rules! map {
    ($depth:literal, $face:literal, $grid:literal, $corner:literal, $select:ident) => {
        Ok(Command::Read(ReadCommand::Map(MapOptions {
            depth: $depth,
            face: $face,
            grid: $grid,
            corner: $corner,
            select: Select::$select,
        })))
    };
}

// The sheet of a seed and a size, refined to a depth.
macro_rules! sheet {
    ($seed:literal, $size:literal, $depth:literal) => {
        Ok(Command::Make(MakeCommand::Gen(GenOptions { seed: $seed, size: $size, depth: $depth })))
    };
}

// Moves of a mesh at a depth, with a scale.
macro_rules! moves {
    ($depth:literal, $scale:literal) => {
        Ok(Command::Stream(StreamCommand::Frames(FramesOptions { depth: $depth, scale: $scale })))
    };
}

// Words, and their command or the place of the first bad one. `cases/words` has more words that are not a command.
type Words = (&'static str, Result<Command, u32>);

const WORDS: &[Words] = &[
    ("refine depth=0", refine!(0, None, Smooth, Table, false)),
    ("refine depth=10", refine!(10, None, Smooth, Table, false)),
    (
        "refine by=table tags=no uv=smooth depth=9",
        refine!(9, None, Smooth, Table, false),
    ),
    (
        "refine decimals=18 uv=boundaries tags=yes depth=1 by=level",
        refine!(1, Some(18), Boundaries, Level, true),
    ),
    (
        "refine depth=2 decimals=0 uv=corners",
        refine!(2, Some(0), Corners, Table, false),
    ),
    (
        "refine uv=linear by=level depth=5",
        refine!(5, None, Linear, Level, false),
    ),
    ("sparse depth=10", sparse!(10, Feature, None, NoTexture)),
    (
        "sparse uv=none decimals=18 select=all depth=0",
        sparse!(0, All, Some(18), NoTexture),
    ),
    (
        "sparse depth=3 uv=smooth",
        sparse!(3, Feature, None, Smooth),
    ),
    (
        "sparse uv=corners depth=0",
        sparse!(0, Feature, None, Corners),
    ),
    (
        "sparse depth=2 select=all uv=boundaries",
        sparse!(2, All, None, Boundaries),
    ),
    (
        "sparse uv=linear decimals=0 depth=1",
        sparse!(1, Feature, Some(0), Linear),
    ),
    (
        "stencils depth=3",
        Ok(Command::Read(ReadCommand::Stencils { depth: 3 })),
    ),
    ("limit depth=1", limit!(1, None)),
    ("limit decimals=18 depth=10", limit!(10, Some(18))),
    (
        "levels depth=10",
        Ok(Command::Read(ReadCommand::Levels { depth: 10 })),
    ),
    ("patch depth=0 face=0 grid=1", patch!(0, 0, 1)),
    (
        "patch grid=64 face=4194303 depth=10",
        patch!(10, 4_194_303, 64),
    ),
    ("map depth=0 face=0 grid=1", map!(0, 0, 1, 0, Feature)),
    (
        "map select=all corner=65535 grid=256 face=1048575 depth=10",
        map!(10, 1_048_575, 256, 65535, All),
    ),
    (
        "verify depth=10",
        Ok(Command::Stored(StoredCommand::Verify { depth: 10 })),
    ),
    ("apply", Ok(Command::Stored(StoredCommand::Apply))),
    ("frames depth=10", moves!(10, 0)),
    ("frames scale=18 depth=0", moves!(0, 18)),
    ("gen seed=0 size=1 depth=0", sheet!(0, 1, 0)),
    (
        "gen size=256 depth=10 seed=4294967295",
        sheet!(4_294_967_295, 256, 10),
    ),
    ("", Err(0)),
    ("Refine depth=1", Err(0)),
    ("levels", Err(1)),
    ("limit depth=0", Err(1)),
    ("patch face=4194304 depth=0 grid=1", Err(1)),
    ("patch depth=0 face=0 grid=65", Err(3)),
    ("patch depth=0 grid=1", Err(3)),
    ("sparse depth=0 uv=texture", Err(2)),
    ("map depth=0 face=1048576 grid=1", Err(2)),
    ("map depth=0 face=0 grid=257", Err(3)),
    ("map depth=0 face=0 grid=0", Err(3)),
    ("map depth=0 face=0 grid=1 corner=65536", Err(4)),
    ("map face=0 grid=1 corner=0", Err(4)),
    ("verify", Err(1)),
    ("verify depth=11", Err(1)),
    ("apply depth=0", Err(1)),
    ("refine depth=01", Err(1)),
    ("frames scale=0", Err(2)),
    ("frames depth=0 scale=19", Err(2)),
    ("gen seed=4294967296", Err(1)),
    ("stencils depth=0 depth=2", Err(2)),
    ("gen seed=1 depth=1", Err(3)),
    ("gen size=4 depth=1 seed=2147483648 seed=2147483648", Err(4)),
    (
        "refine depth=0 decimals=6 by=table uv=boundaries depth=11",
        Err(5),
    ),
];

fn words() -> &'static [Words] {
    WORDS
}

fn expect_words(rt: &(impl Abort + AllocGlobal), row: &Words) -> Result<(), Fail> {
    let (text, want) = row;
    let words = words_of(rt.alloc(), text)?;
    expect_same(rt, &read_words(&words), want, row);
    Ok(())
}

#[test]
fn reads_words(rt: HostRuntime) -> Result<(), Fail> {
    for row in words() {
        expect_words(&rt, row)?;
    }
    Ok(())
}
