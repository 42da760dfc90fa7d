//! The faults of a run.

ghost use Rattle.std.specs.Prelude.{◌≡◌, ◌++◌, codes, Some};
ghost use Rattle.subdiv_model.specs.Fault.{fault_text, fault_status, kind_text, limit_cause_text, place_fault_text, track_text};
ghost use Rattle.level_walk.specs.View.{kind_of};
ghost use Rattle.far_fault.specs.View.{fault_of, limit_cause_of, place_fault_of, track_of};

use level_topology::Counted;
use level_walk::OverflowKind;
use mesh_check::MeshFault;
use obj_tags::{ObjCause, ObjFault};
use ratio128::Memory;
use std::fmt;
use table_file::{TableCause, TableFault};
use text_pieces::Pieces;

/// A group of values whose numbers can pass their bounds.
#[derive(Clone, Copy, Debug, PartialEq, Eq)]
pub enum Track {
    /// The positions of the points.
    Positions,
    /// The texture values.
    Texture,
    /// The rows of limit points.
    LimitRows,
    /// The rows of a patch.
    Patch,
}

/// The cause that leaves a point of a level without a limit point. The field is the point, counted from 0.
#[derive(Clone, Copy, Debug, PartialEq, Eq)]
pub enum LimitCause {
    /// One infinitely sharp edge ends at the point.
    Dart(u32),
    /// The point or one of its edges is semi-sharp.
    SemiSharp(u32),
}

/// The cause that leaves a place of a face without a patch or a leaf. Faces and corners are counted from 0.
#[derive(Clone, Copy, Debug, PartialEq, Eq)]
pub enum PlaceFault {
    /// The level does not have the requested face. `count` is the number of its faces.
    NoFace { count: u32 },
    /// The face is not a quad, or a corner of it is sharp, on a sharp or boundary edge, or not surrounded by four quads.
    NotRegular { face: u32 },
    /// The face has no places with the requested corner. `count` is the number of its corners. A quad has all its places at corner 0; any
    /// other face has places at each corner.
    NoCorner { count: u32 },
    /// The face is a hole.
    IsHole { face: u32 },
}

/// The fault of a run. Each fault has an exit status and a line on standard error.
#[derive(Clone, Copy, Debug, PartialEq, Eq)]
pub enum FarFault {
    /// The words are not a command. `word` is the place of the first bad word, counted from 0, or the number of words if a required
    /// option is missing.
    Usage {
        word: u32,
    },
    /// A read failed.
    Read,
    /// The input has more than 2^28 bytes.
    Long,
    /// A line of the input is refused. `line` is the first such line, counted from 1, and `cause` its fault.
    Obj {
        line: u32,
        cause: ObjCause,
    },
    /// The mesh is not a manifold. The field is its first fault; it counts faces and vertices from 0.
    Mesh(MeshFault),
    /// The mesh is a manifold, but a count passes its limit. The field is the first such count. It counts levels from 1, and faces and
    /// vertices from 0.
    TooLarge(Counted),
    /// A number passes its bound. `track` is its group of values, `level` the first level with such a number, and `kind` its kind. The mesh
    /// itself is level 0: a patch or a move at depth 0 has this level, and so have the points of `apply`.
    Overflow {
        track: Track,
        level: u32,
        kind: OverflowKind,
    },
    /// A point has no limit point. The field names the least such point.
    Limit(LimitCause),
    /// A place of a face has no patch or no leaf. The face is one of the last level, or for a map one of the mesh.
    Place(PlaceFault),
    /// A stored table is refused. `line` is its first bad line, counted from 1 over the whole input.
    Table {
        line: u32,
        cause: TableCause,
    },
    /// A stored table differs from the table of the mesh. `row` is the first different row, counted from 0.
    Differs {
        row: u32,
    },
    /// The number of points is not the stored table's number of control points. `count` is the number of points.
    Controls {
        count: u32,
    },
    /// A write or a flush failed.
    Write,
    /// Memory ran out.
    Memory,
}

impl From<Memory> for FarFault {
    ghost use Rattle.far_fault.specs.declared.fault.FarFault.TheVariants as fault;

    ghost from_gives = { λ _ e. e ≡ fault.Memory };

    fn from(_: Memory) -> FarFault {
        FarFault::Memory
    }
}

/// Returns the exit status of a fault: 2 to 11 or 13 to 16. The page of refusals in the guide lists them.
pub fn status(fault: &FarFault) -> u8
    ensures { result ≡ fault_status (fault_of fault.now) }
{
    match fault {
        FarFault::Usage { .. } => 2,
        FarFault::Read => 3,
        FarFault::Long => 4,
        FarFault::Obj { .. } => 5,
        FarFault::Mesh(_) => 6,
        FarFault::TooLarge(_) => 7,
        FarFault::Overflow { .. } => 8,
        FarFault::Limit(_) => 9,
        FarFault::Place(_) => 13,
        FarFault::Table { .. } => 14,
        FarFault::Differs { .. } => 15,
        FarFault::Controls { .. } => 16,
        FarFault::Write => 10,
        FarFault::Memory => 11,
    }
}

// Returns the words that name the track, before the level.
fn track_words(track: Track) -> &'static str
    ensures { result.now ≡ track_text (track_of track) ++ codes " level " }
{
    match track {
        Track::Positions => "positions level ",
        Track::Texture => "texture level ",
        Track::LimitRows => "limit level ",
        Track::Patch => "patch level ",
    }
}

// Returns the words that name the kind, after the level.
fn kind_words(kind: OverflowKind) -> &'static str
    ensures { result.now ≡ codes ": " ++ (kind_text (kind_of kind) ++ codes " overflow") }
{
    match kind {
        OverflowKind::Chaikin => ": chaikin overflow",
        OverflowKind::Transition => ": transition overflow",
        OverflowKind::Denominator => ": denominator overflow",
        OverflowKind::Value => ": value overflow",
    }
}

// Returns the words of a cause that leaves a point without a limit point.
fn limit_pieces(cause: LimitCause) -> Pieces
    ensures { result ≡ limit_cause_text (limit_cause_of cause) }
{
    match cause {
        LimitCause::Dart(v) => Pieces::about("vertex ", v as u64, " is a dart"),
        LimitCause::SemiSharp(v) => Pieces::about("vertex ", v as u64, " is semi-sharp"),
    }
}

// Returns the words of a cause that leaves a place without a patch or a leaf.
fn place_pieces(fault: PlaceFault) -> Pieces
    ensures { result ≡ place_fault_text (place_fault_of fault) }
{
    match fault {
        PlaceFault::NoFace { count } => Pieces::about("there are ", count as u64, " faces"),
        PlaceFault::NotRegular { face } => {
            Pieces::about("face ", face as u64, " is not a regular inner face")
        }
        PlaceFault::NoCorner { count } => {
            Pieces::about("the face has ", count as u64, " corners")
        }
        PlaceFault::IsHole { face } => Pieces::about("face ", face as u64, " is a hole"),
    }
}

impl FarFault {
    /// Returns the words of the fault, without `far: ` and the end of line.
    pub fn pieces(&self) -> Pieces
        ensures { result ≡ fault_text (fault_of self.now) }
    {
        match *self {
            FarFault::Usage { word } => Pieces::about("word ", word as u64, " is not understood"),
            FarFault::Read => Pieces::plain("reading failed"),
            FarFault::Long => Pieces::plain("input is longer than 268435456 bytes"),
            FarFault::Obj { line, cause } => ObjFault { line, cause }.pieces(),
            FarFault::Mesh(fault) => fault.pieces(),
            FarFault::TooLarge(counted) => counted.pieces(),
            FarFault::Overflow { track, level, kind } => {
                Pieces::about(track_words(track), level as u64, kind_words(kind))
            }
            FarFault::Limit(cause) => limit_pieces(cause),
            FarFault::Place(fault) => place_pieces(fault),
            FarFault::Table { line, cause } => TableFault { line, cause }.pieces(),
            FarFault::Differs { row } => Pieces::about("row ", row as u64, " differs"),
            FarFault::Controls { count } => {
                Pieces::about("", count as u64, " control points given")
            }
            FarFault::Write => Pieces::plain("writing failed"),
            FarFault::Memory => Pieces::plain(Memory.text()),
        }
    }
}

impl fmt::Display for FarFault {
    ghost output = { λ fault. Some (fault_text (fault_of fault)) };

    fn fmt<W: fmt::Write>(&self, f: &mut fmt::Formatter<W>) -> fmt::Result {
        write!(f, "{}", self.pieces())
    }
}

impl std::error::Error for FarFault {}
