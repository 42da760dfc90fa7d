//! The lines with the counts of levels.

ghost use Rattle.std.specs.Prelude.{◌≡◌, ◌++◌, false, map, codes};
ghost use Rattle.subdiv_model.specs.NumberText.{sign_text};
ghost use Rattle.subdiv_model.specs.LevelText.{whole_text};
ghost use Rattle.level_walk.specs.CountsView.{seen_counts};
ghost use Rattle.obj_out.specs.Puts.{Puts};
ghost use Rattle.far_text.specs.Levels.{counts_line, levels_lines};
ghost use Rattle.far_text.specs.CountLines.{kind_words};

use far_io::{Sink, WriteFailed};
use level_walk::LevelCounts;
use obj_out::Out;

// Puts `-` if Euler's number is below 0.
fn put_sign<K: Sink>(out: &mut Out<'_, K>, counts: &LevelCounts) -> Result<(), WriteFailed>
    ensures { Puts K.Sink out.old out.new (sign_text counts.now.euler) result }
{
    out.put_bytes(if counts.euler < 0 { b"-" } else { b"" })
}

// Puts Euler's number, which may be below 0.
fn put_euler<K: Sink>(out: &mut Out<'_, K>, counts: &LevelCounts) -> Result<(), WriteFailed>
    ensures { Puts K.Sink out.old out.new (codes " euler " ++ whole_text counts.now.euler) result }
{
    out.put_bytes(b" euler ")?;
    put_sign(out, counts)?;
    out.put_number(counts.euler.unsigned_abs())
}

// Puts the numbers of edges, faces and points of each kind, and the end of the line.
fn put_kinds<K: Sink>(out: &mut Out<'_, K>, counts: &LevelCounts) -> Result<(), WriteFailed>
    ensures { Puts K.Sink out.old out.new (kind_words (seen_counts counts.now)) result }
{
    out.put_count(b" boundary", counts.boundary as u64)?;
    out.put_count(b" holes", counts.holes as u64)?;
    out.put_count(b" sharp", counts.sharp as u64)?;
    out.put_count(b" extraordinary", counts.extraordinary as u64)?;
    out.put_byte(b'\n')
}

// Puts the line of a level.
fn put_level_line<K: Sink>(
    out: &mut Out<'_, K>,
    number: u64,
    counts: &LevelCounts,
) -> Result<(), WriteFailed>
    ensures { Puts K.Sink out.old out.new (counts_line number (seen_counts counts.now)) result }
{
    out.put_count(b"level", number)?;
    out.put_count(b" points", counts.points as u64)?;
    out.put_count(b" edges", counts.edges as u64)?;
    out.put_count(b" faces", counts.faces as u64)?;
    put_euler(out, counts)?;
    put_kinds(out, counts)
}

/// Puts a line with the counts of each level, numbered from 0.
pub fn put_levels<K: Sink>(out: &mut Out<'_, K>, counts: &[LevelCounts]) -> Result<(), WriteFailed>
    requires fine { out.old.failed ≡ false }
    ensures { Puts K.Sink out.old out.new (levels_lines 0 (map seen_counts counts.now)) result }
{
    for k in 0..counts.len() {
        put_level_line(out, k as u64, &counts[k])?;
    }
    Ok(())
}
