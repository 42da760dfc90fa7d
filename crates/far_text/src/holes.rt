//! The lines of holes.

ghost use Rattle.std.specs.Prelude.{◌≡◌, ◌<◌, false, length};
ghost use Rattle.std.specs.List.{flat_map, range_with_len};
ghost use Rattle.subdiv_model.specs.Text.{hole_line};
ghost use Rattle.obj_out.specs.Puts.{Puts};
ghost use Rattle.far_text.specs.Lines.{hole_where_marked};

use far_io::{Sink, WriteFailed};
use level_topology::Level;
use obj_out::Out;

// Puts the line of a hole.
fn put_hole<K: Sink>(out: &mut Out<'_, K>, f: u32) -> Result<(), WriteFailed>
    ensures { Puts K.Sink out.old out.new (hole_line f) result }
{
    out.put_bytes(b"t hole 1/0/0")?;
    out.put_number_after(b' ', f as u64)?;
    out.put_byte(b'\n')
}

// Puts the line of a hole, or nothing for another face.
fn put_face<K: Sink>(out: &mut Out<'_, K>, level: &Level, f: u32) -> Result<(), WriteFailed>
    requires fine { out.old.failed ≡ false }
    requires exists { f < length level.now.level.polygons }
    ensures { Puts K.Sink out.old out.new (hole_where_marked level.now.level f) result }
{
    if level.is_hole(f) {
        return put_hole(out, f);
    }
    Ok(())
}

// Puts a line for each hole.
pub(crate) fn put_holes<K: Sink>(out: &mut Out<'_, K>, level: &Level) -> Result<(), WriteFailed>
    requires fine { out.old.failed ≡ false }
    ensures { Puts K.Sink out.old out.new (flat_map (hole_where_marked level.now.level) (range_with_len 0 (length level.now.level.polygons))) result }
{
    for f in 0..level.faces() {
        put_face(out, level, f)?;
    }
    Ok(())
}
