//! The lines of faces with their texture points.

ghost use Rattle.std.specs.Prelude.{◌≡◌, ◌<◌, false, length, map};
ghost use Rattle.std.specs.List.{flat_map, range_with_len, zip};
ghost use Rattle.subdiv_model.specs.Text.{corner_text, textured_face_line};
ghost use Rattle.obj_out.specs.Puts.{Puts};
ghost use Rattle.far_text.specs.Lines.{textured_word, shown_textured_face};

use crate::words::put_pair;
use far_io::{Sink, WriteFailed};
use level_topology::Level;
use obj_out::Out;

// Puts a corner with its texture point, both counted from 1.
fn put_corner<K: Sink>(out: &mut Out<'_, K>, corner: u32, texture: u32) -> Result<(), WriteFailed>
    ensures { Puts K.Sink out.old out.new (corner_text (corner, texture)) result }
{
    put_pair(out, corner as u64 + 1, texture as u64 + 1)
}

// Puts a space and a corner with its texture point.
fn put_corner_word<K: Sink>(
    out: &mut Out<'_, K>,
    corner: u32,
    texture: u32,
) -> Result<(), WriteFailed>
    ensures { Puts K.Sink out.old out.new (textured_word (corner, texture)) result }
{
    out.put_byte(b' ')?;
    put_corner(out, corner, texture)
}

// Puts the corners of a face with their texture points.
pub(crate) fn put_corners<K: Sink>(
    out: &mut Out<'_, K>,
    corners: &[u32],
    texture: &[u32],
) -> Result<(), WriteFailed>
    requires fine { out.old.failed ≡ false }
    requires alike { length texture.now ≡ length corners.now }
    ensures { Puts K.Sink out.old out.new (flat_map textured_word (zip corners.now texture.now)) result }
{
    for k in 0..corners.len() {
        put_corner_word(out, corners[k], texture[k])?;
    }
    Ok(())
}

// Puts the line of a face with its texture points.
fn put_face<K: Sink>(
    out: &mut Out<'_, K>,
    corners: &[u32],
    texture: &[u32],
) -> Result<(), WriteFailed>
    requires alike { length texture.now ≡ length corners.now }
    ensures { Puts K.Sink out.old out.new (textured_face_line (corners.now, texture.now)) result }
{
    out.put_byte(b'f')?;
    put_corners(out, corners, texture)?;
    out.put_byte(b'\n')
}

// Puts the line of a face; with `holes` false it puts nothing for a hole.
fn put_shown_face<K: Sink>(
    out: &mut Out<'_, K>,
    level: &Level,
    cut: &Level,
    f: u32,
    holes: bool,
) -> Result<(), WriteFailed>
    requires fine { out.old.failed ≡ false }
    requires alike { map length cut.now.level.polygons ≡ map length level.now.level.polygons }
    requires exists { f < length level.now.level.polygons }
    ensures { Puts K.Sink out.old out.new (shown_textured_face holes level.now.level cut.now.level f) result }
{
    if holes || !level.is_hole(f) {
        return put_face(out, level.face_vertices(f), cut.face_vertices(f));
    }
    Ok(())
}

// Puts a line for each face; with `holes` false it leaves out the holes. The corners of the cut level's faces are texture points.
pub(crate) fn put_textured_faces<K: Sink>(
    out: &mut Out<'_, K>,
    level: &Level,
    cut: &Level,
    holes: bool,
) -> Result<(), WriteFailed>
    requires fine { out.old.failed ≡ false }
    requires alike { map length cut.now.level.polygons ≡ map length level.now.level.polygons }
    ensures { Puts K.Sink out.old out.new (flat_map (shown_textured_face holes level.now.level cut.now.level) (range_with_len 0 (length level.now.level.polygons))) result }
{
    for f in 0..level.faces() {
        put_shown_face(out, level, cut, f, holes)?;
    }
    Ok(())
}
