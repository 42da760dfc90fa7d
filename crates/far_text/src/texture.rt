//! The lines of texture points.

ghost use Rattle.std.specs.Prelude.{◌≡◌, ◌<◌, ◌≤◌, ◌^◌, unsigned_abs, false, IfSome};
ghost use Rattle.std.specs.List.{All, flat_map};
ghost use Rattle.subdiv_model.specs.Text.{texture_line};
ghost use Rattle.obj_out.specs.Puts.{Puts};
ghost use Rattle.far_text.specs.Texture.{CanTextureBeWritten};
ghost use Rattle.far_text.specs.Lines.{texture_over, valued_texture_line};

use crate::points::put_coordinate;
use far_io::{Sink, WriteFailed};
use obj_out::Out;
use ratio128::{Point2, Valued};

// Puts the line of a texture point, whose coordinates are over one denominator.
fn put_point<K: Sink>(
    out: &mut Out<'_, K>,
    point: &Point2,
    den: u128,
    decimals: Option<u32>,
) -> Result<(), WriteFailed>
    requires positive { 0 < den }
    requires short { den < 2 ^ 126 }
    requires u { unsigned_abs point.now.u < 2 ^ 127 }
    requires v { unsigned_abs point.now.v < 2 ^ 127 }
    requires few { IfSome decimals (λ digits. digits ≤ 18) }
    ensures { Puts K.Sink out.old out.new (texture_line decimals (texture_over den point.now)) result }
{
    out.put_bytes(b"vt")?;
    put_coordinate(out, &point.u, den, decimals)?;
    put_coordinate(out, &point.v, den, decimals)?;
    out.put_byte(b'\n')
}

// Puts the line of a texture point over its own denominator times the common one.
fn put_valued<K: Sink>(
    out: &mut Out<'_, K>,
    p: &Valued<Point2>,
    common: u128,
    decimals: Option<u32>,
) -> Result<(), WriteFailed>
    requires written { CanTextureBeWritten common p.now }
    requires decimals { IfSome decimals (λ digits. digits ≤ 18) }
    ensures { Puts K.Sink out.old out.new (valued_texture_line decimals common p.now) result }
{
    put_point(out, &p.value, p.den * common, decimals)
}

// Puts a line for each texture point.
pub(crate) fn put_texture<K: Sink>(
    out: &mut Out<'_, K>,
    points: &[Valued<Point2>],
    common: u128,
    decimals: Option<u32>,
) -> Result<(), WriteFailed>
    requires fine { out.old.failed ≡ false }
    requires written { All (CanTextureBeWritten common) points.now }
    requires decimals { IfSome decimals (λ digits. digits ≤ 18) }
    ensures { Puts K.Sink out.old out.new (flat_map (valued_texture_line decimals common) points.now) result }
{
    for p in points {
        put_valued(out, p, common, decimals)?;
    }
    Ok(())
}
