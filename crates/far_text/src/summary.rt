//! The summary of a sheet of the command `gen`.

ghost use Rattle.std.specs.Prelude.{◌≡◌, false};
ghost use Rattle.obj_out.specs.Puts.{Puts};
ghost use Rattle.far_text.specs.Summary.{CanSummaryBeWritten, sheet_line, depth_line, summary_text};
ghost use Rattle.far_text.specs.CountLines.{greatest_words};

use crate::points::put_valued;
use far_io::{Sink, WriteFailed};
use obj_out::Out;
use ratio128::{Point3, Valued};

/// A sheet, the table of its points at a depth, and the last of these points.
#[derive(Drop)]
pub struct Summary {
    /// The number of points of the sheet.
    pub points: u32,
    /// The number of faces of the sheet.
    pub faces: u32,
    /// The depth.
    pub depth: u32,
    /// The number of points of the level.
    pub level_points: u32,
    /// The number of faces of the level.
    pub level_faces: u32,
    /// The number of entries of the table.
    pub entries: u64,
    /// The greatest denominator of a row.
    pub greatest: u128,
    /// The last point of the level, over its own denominator.
    pub last: Valued<Point3>,
}

// Puts the numbers of points and faces of the sheet.
fn put_sheet<K: Sink>(out: &mut Out<'_, K>, summary: &Summary) -> Result<(), WriteFailed>
    ensures { Puts K.Sink out.old out.new (sheet_line summary.now.points summary.now.faces) result }
{
    out.put_count(b"gen points", summary.points as u64)?;
    out.put_count(b" faces", summary.faces as u64)?;
    out.put_byte(b'\n')
}

// Puts the greatest denominator, and the end of the line.
fn put_greatest<K: Sink>(out: &mut Out<'_, K>, greatest: u128) -> Result<(), WriteFailed>
    ensures { Puts K.Sink out.old out.new (greatest_words greatest) result }
{
    out.put_bytes(b" den")?;
    out.put_wide_after(b' ', greatest)?;
    out.put_byte(b'\n')
}

// Puts the depth, the counts of the level and of the table, and the greatest denominator.
fn put_depth<K: Sink>(out: &mut Out<'_, K>, summary: &Summary) -> Result<(), WriteFailed>
    ensures { Puts K.Sink out.old out.new (depth_line summary.now) result }
{
    out.put_count(b"level", summary.depth as u64)?;
    out.put_count(b" points", summary.level_points as u64)?;
    out.put_count(b" faces", summary.level_faces as u64)?;
    out.put_count(b" entries", summary.entries)?;
    put_greatest(out, summary.greatest)
}

/// Puts three lines. The first has the numbers of points and faces of the sheet. The second has the depth, the counts of its level and
/// table, and the greatest denominator. The third has the coordinates of the last point, in lowest terms. The call takes no memory.
pub fn put_summary<K: Sink>(out: &mut Out<'_, K>, summary: &Summary) -> Result<(), WriteFailed>
    requires fine { out.old.failed ≡ false }
    requires written { CanSummaryBeWritten summary.now }
    ensures { Puts K.Sink out.old out.new (summary_text summary.now) result }
{
    put_sheet(out, summary)?;
    put_depth(out, summary)?;
    put_valued(out, b"last", &summary.last, 1, None)
}
