//! The lines of tags.

ghost use Rattle.std.specs.Prelude.{◌≡◌, false};
ghost use Rattle.subdiv_model.specs.Text.{method_line, tags_text};
ghost use Rattle.obj_out.specs.Puts.{Puts};

use crate::corner_tags::put_corners;
use crate::creases::put_creases;
use crate::holes::put_holes;
use far_io::{Sink, WriteFailed};
use level_topology::Level;
use obj_out::Out;
use sharpness_rules::Method;

// Puts the line of the method `chaikin`, or nothing for the other method.
fn put_method<K: Sink>(out: &mut Out<'_, K>, level: &Level) -> Result<(), WriteFailed>
    requires fine { out.old.failed ≡ false }
    ensures { Puts K.Sink out.old out.new (method_line level.now.level.method) result }
{
    match level.method() {
        Method::Normal => Ok(()),
        Method::Chaikin => out.put_bytes(b"t creasemethod 0/0/1 chaikin\n"),
    }
}

/// Puts the tags that describe a level: the boundary mode of sharp boundary edges, and the method if it is chaikin. A line follows for
/// each sharp edge of two faces, each sharp vertex and each hole. Tags count from 0. An infinite sharpness is 10.
pub fn put_tags<K: Sink>(out: &mut Out<'_, K>, level: &Level) -> Result<(), WriteFailed>
    ensures { Puts K.Sink out.old out.new (tags_text level.now.level) result }
{
    out.put_bytes(b"t interpolateboundary 1/0/0 2\n")?;
    put_method(out, level)?;
    put_creases(out, level)?;
    put_corners(out, level)?;
    put_holes(out, level)
}
