//! The lines of sharp vertices.

ghost use Rattle.std.specs.Prelude.{◌≡◌, ◌<◌, false};
ghost use Rattle.std.specs.List.{flat_map, range_with_len};
ghost use Rattle.sharpness_rules.specs.View.{sharpness_of};
ghost use Rattle.obj_out.specs.Puts.{Puts};
ghost use Rattle.far_text.specs.Lines.{corner_tag, corner_where_sharp};

use crate::sharpness::put_sharpness_word;
use far_io::{Sink, WriteFailed};
use level_topology::Level;
use obj_out::Out;
use sharpness_rules::Sharpness;

// Puts the line of a vertex.
fn put_corner<K: Sink>(
    out: &mut Out<'_, K>,
    v: u32,
    sharpness: Sharpness,
) -> Result<(), WriteFailed>
    ensures { Puts K.Sink out.old out.new (corner_tag v (sharpness_of sharpness)) result }
{
    out.put_bytes(b"t corner 1/1/0")?;
    out.put_number_after(b' ', v as u64)?;
    put_sharpness_word(out, sharpness)?;
    out.put_byte(b'\n')
}

// Puts the line of a sharp vertex, or nothing for another.
fn put_vertex<K: Sink>(out: &mut Out<'_, K>, level: &Level, v: u32) -> Result<(), WriteFailed>
    requires fine { out.old.failed ≡ false }
    requires exists { v < level.now.level.point_count }
    ensures { Puts K.Sink out.old out.new (corner_where_sharp level.now.level v) result }
{
    let sharpness = level.vertex_sharpness(v);
    if sharpness.is_sharp() {
        return put_corner(out, v, sharpness);
    }
    Ok(())
}

// Puts a line for each sharp vertex.
pub(crate) fn put_corners<K: Sink>(out: &mut Out<'_, K>, level: &Level) -> Result<(), WriteFailed>
    requires fine { out.old.failed ≡ false }
    ensures { Puts K.Sink out.old out.new (flat_map (corner_where_sharp level.now.level) (range_with_len 0 level.now.level.point_count)) result }
{
    for v in 0..level.points() {
        put_vertex(out, level, v)?;
    }
    Ok(())
}
