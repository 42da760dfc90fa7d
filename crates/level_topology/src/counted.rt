//! Counts that exceed their limits.

ghost use Rattle.std.specs.Prelude.{◌≡◌, Some};
ghost use Rattle.subdiv_model.specs.Fault.{counted_text};
ghost use Rattle.level_topology.specs.CountedText.{counted_of};

use std::fmt;
use text_pieces::Pieces;

/// A count that exceeds its limit. Faces and points are counted from 0. Callers use it for the texts of their refusals.
#[derive(Clone, Copy, Debug, PartialEq, Eq)]
pub enum Counted {
    /// Too many points: their count.
    Points(u64),
    /// Too many faces: their count.
    Faces(u64),
    /// A face with too many corners.
    FaceSize { face: u32, size: u64 },
    /// A point with too many edges.
    Valence { vertex: u32, count: u64 },
    /// A level with too many faces.
    LevelFaces { level: u32, count: u64 },
    /// A level whose table has too many entries.
    Entries { level: u32 },
    /// Limit rows with too many entries.
    LimitEntries,
    /// Rows of a patch with too many entries.
    PatchEntries,
}

impl Counted {
    /// The excess in words.
    pub fn pieces(&self) -> Pieces
        ensures { result ≡ counted_text (counted_of self.now) }
    {
        match *self {
            Counted::Points(count) => Pieces::about("too many points: ", count, ""),
            Counted::Faces(count) => Pieces::about("too many faces: ", count, ""),
            Counted::FaceSize { face, size } => {
                Pieces::about_two("face ", u64::from(face), " has ", size, " corners")
            }
            Counted::Valence { vertex, count } => {
                Pieces::about_two("vertex ", u64::from(vertex), " has ", count, " edges")
            }
            Counted::LevelFaces { level, count } => {
                Pieces::about_two("level ", u64::from(level), " has ", count, " faces")
            }
            Counted::Entries { level } => {
                Pieces::about("level ", u64::from(level), " has too many entries")
            }
            Counted::LimitEntries => Pieces::plain("the limit rows have too many entries"),
            Counted::PatchEntries => Pieces::plain("the patch rows have too many entries"),
        }
    }
}

impl fmt::Display for Counted {
    ghost output = { λ counted. Some (counted_text (counted_of counted)) };

    fn fmt<W: fmt::Write>(&self, f: &mut fmt::Formatter<W>) -> fmt::Result {
        write!(f, "{}", self.pieces())
    }
}

impl std::error::Error for Counted {}
