//! The lines of faces.

ghost use Rattle.std.specs.Prelude.{◌≡◌, ◌<◌, false, length};
ghost use Rattle.std.specs.List.{flat_map, range_with_len};
ghost use Rattle.subdiv_model.specs.Text.{face_line};
ghost use Rattle.obj_out.specs.Puts.{Puts};
ghost use Rattle.far_text.specs.Lines.{corner_word, shown_face};

use far_io::{Sink, WriteFailed};
use level_topology::Level;
use obj_out::Out;

// Puts a space and a corner, counted from 1.
fn put_corner<K: Sink>(out: &mut Out<'_, K>, corner: u32) -> Result<(), WriteFailed>
    ensures { Puts K.Sink out.old out.new (corner_word corner) result }
{
    out.put_number_after(b' ', corner as u64 + 1)
}

// Puts the corners of a face.
pub(crate) fn put_corners<K: Sink>(out: &mut Out<'_, K>, corners: &[u32]) -> Result<(), WriteFailed>
    requires fine { out.old.failed ≡ false }
    ensures { Puts K.Sink out.old out.new (flat_map corner_word corners.now) result }
{
    for corner in corners {
        put_corner(out, *corner)?;
    }
    Ok(())
}

// Puts the line of a face.
fn put_face<K: Sink>(out: &mut Out<'_, K>, corners: &[u32]) -> Result<(), WriteFailed>
    ensures { Puts K.Sink out.old out.new (face_line corners.now) result }
{
    out.put_byte(b'f')?;
    put_corners(out, corners)?;
    out.put_byte(b'\n')
}

// Puts the line of a face; with `holes` false it puts nothing for a hole.
fn put_shown_face<K: Sink>(
    out: &mut Out<'_, K>,
    level: &Level,
    f: u32,
    holes: bool,
) -> Result<(), WriteFailed>
    requires fine { out.old.failed ≡ false }
    requires exists { f < length level.now.level.polygons }
    ensures { Puts K.Sink out.old out.new (shown_face holes level.now.level f) result }
{
    if holes || !level.is_hole(f) {
        return put_face(out, level.face_vertices(f));
    }
    Ok(())
}

// Puts a line for each face; with `holes` false it leaves out the holes.
pub(crate) fn put_faces<K: Sink>(
    out: &mut Out<'_, K>,
    level: &Level,
    holes: bool,
) -> Result<(), WriteFailed>
    requires fine { out.old.failed ≡ false }
    ensures { Puts K.Sink out.old out.new (flat_map (shown_face holes level.now.level) (range_with_len 0 (length level.now.level.polygons))) result }
{
    for f in 0..level.faces() {
        put_shown_face(out, level, f, holes)?;
    }
    Ok(())
}
