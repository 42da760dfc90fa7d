//! The lines of creases.

ghost use Rattle.std.specs.Prelude.{◌≡◌, ◌<◌, false, length};
ghost use Rattle.std.specs.List.{flat_map};
ghost use Rattle.subdiv_model.specs.Edges.{edges_of};
ghost use Rattle.subdiv_model.specs.Level.{edge_sharpness_of};
ghost use Rattle.sharpness_rules.specs.View.{sharpness_of};
ghost use Rattle.level_topology.specs.Topology.{edge_at};
ghost use Rattle.obj_out.specs.Puts.{Puts};
ghost use Rattle.far_text.specs.Lines.{crease_tag, crease_where_sharp};

use crate::sharpness::put_sharpness_word;
use far_io::{Sink, WriteFailed};
use level_topology::Level;
use obj_out::Out;
use sharpness_rules::Sharpness;

// The sharpness of an edge.
fn sharpness_at(level: &Level, e: u32) -> Sharpness
    requires { e < length (edges_of level.now.level.polygons) }
    ensures { sharpness_of result ≡ edge_sharpness_of level.now.level (edge_at level.now.level.polygons e) }
{
    level.edge_sharpness(e)
}

// Puts the line of a crease between two vertices.
fn put_crease<K: Sink>(
    out: &mut Out<'_, K>,
    ends: (u32, u32),
    sharpness: Sharpness,
) -> Result<(), WriteFailed>
    ensures { Puts K.Sink out.old out.new (crease_tag ends (sharpness_of sharpness)) result }
{
    let (first, second) = ends;
    out.put_bytes(b"t crease 2/1/0")?;
    out.put_number_after(b' ', first as u64)?;
    out.put_number_after(b' ', second as u64)?;
    put_sharpness_word(out, sharpness)?;
    out.put_byte(b'\n')
}

// Puts the line of a sharp edge of two faces, or nothing for another.
fn put_edge<K: Sink>(out: &mut Out<'_, K>, level: &Level, e: u32) -> Result<(), WriteFailed>
    requires fine { out.old.failed ≡ false }
    requires exists { e < length (edges_of level.now.level.polygons) }
    ensures { Puts K.Sink out.old out.new (crease_where_sharp level.now.level (edge_at level.now.level.polygons e)) result }
{
    let sharpness = sharpness_at(level, e);
    if level.is_inner(e) && sharpness.is_sharp() {
        return put_crease(out, level.edge_vertices(e), sharpness);
    }
    Ok(())
}

// Puts a line for each sharp edge of two faces.
pub(crate) fn put_creases<K: Sink>(out: &mut Out<'_, K>, level: &Level) -> Result<(), WriteFailed>
    requires fine { out.old.failed ≡ false }
    ensures { Puts K.Sink out.old out.new (flat_map (crease_where_sharp level.now.level) (edges_of level.now.level.polygons)) result }
{
    for e in 0..level.edges() {
        put_edge(out, level, e)?;
    }
    Ok(())
}
