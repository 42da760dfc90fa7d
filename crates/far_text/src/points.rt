//! The lines of points.

ghost use Rattle.std.specs.Prelude.{◌≡◌, ◌<◌, ◌≤◌, ◌^◌, [], ◌∷◌, unsigned_abs, false, IfSome};
ghost use Rattle.std.specs.List.{All, flat_map};
ghost use Rattle.subdiv_model.specs.NumberText.{value_text_with};
ghost use Rattle.subdiv_model.specs.Text.{line_text};
ghost use Rattle.obj_out.specs.Puts.{Puts};
ghost use Rattle.far_text.specs.Points.{CanBeWritten, point_of};
ghost use Rattle.far_text.specs.Lines.{value_over, point_over, coordinate_words, valued_line};

use far_io::{Sink, WriteFailed};
use obj_out::Out;
use ratio128::{Frac, Point3, Valued};

// Puts a space and a coordinate, in lowest terms or rounded to the decimals.
pub(crate) fn put_coordinate<K: Sink>(
    out: &mut Out<'_, K>,
    num: &i128,
    den: u128,
    decimals: Option<u32>,
) -> Result<(), WriteFailed>
    requires positive { 0 < den }
    requires short { den < 2 ^ 126 }
    requires kept { unsigned_abs num.now < 2 ^ 127 }
    requires few { IfSome decimals (λ digits. digits ≤ 18) }
    ensures { Puts K.Sink out.old out.new (32 ∷ value_text_with decimals (value_over den num.now)) result }
{
    let f = Frac { num: *num, den };
    match decimals {
        Some(digits) => out.put_decimal_after(b' ', &f, digits),
        None => out.put_frac_after(b' ', &f),
    }
}

// Puts the coordinates of a point over one denominator, and the end of the line.
pub(crate) fn put_coordinates<K: Sink>(
    out: &mut Out<'_, K>,
    point: &Point3,
    den: u128,
    decimals: Option<u32>,
) -> Result<(), WriteFailed>
    requires positive { 0 < den }
    requires short { den < 2 ^ 126 }
    requires x { unsigned_abs point.now.x < 2 ^ 127 }
    requires y { unsigned_abs point.now.y < 2 ^ 127 }
    requires z { unsigned_abs point.now.z < 2 ^ 127 }
    requires few { IfSome decimals (λ digits. digits ≤ 18) }
    ensures { Puts K.Sink out.old out.new (line_text [] (coordinate_words decimals (point_over den point.now))) result }
{
    put_coordinate(out, &point.x, den, decimals)?;
    put_coordinate(out, &point.y, den, decimals)?;
    put_coordinate(out, &point.z, den, decimals)?;
    out.put_byte(b'\n')
}

// Puts a keyword, the coordinates of a point over its own denominator times the common one, and the end of the line.
pub(crate) fn put_valued<K: Sink>(
    out: &mut Out<'_, K>,
    keyword: &[u8],
    p: &Valued<Point3>,
    common: u128,
    decimals: Option<u32>,
) -> Result<(), WriteFailed>
    requires written { CanBeWritten common p.now }
    requires decimals { IfSome decimals (λ digits. digits ≤ 18) }
    ensures { Puts K.Sink out.old out.new (line_text keyword.now (coordinate_words decimals (point_of common p.now))) result }
{
    out.put_bytes(keyword)?;
    put_coordinates(out, &p.value, p.den * common, decimals)
}

// Puts a line for each point.
pub(crate) fn put_points<K: Sink>(
    out: &mut Out<'_, K>,
    points: &[Valued<Point3>],
    common: u128,
    decimals: Option<u32>,
) -> Result<(), WriteFailed>
    requires fine { out.old.failed ≡ false }
    requires written { All (CanBeWritten common) points.now }
    requires decimals { IfSome decimals (λ digits. digits ≤ 18) }
    ensures { Puts K.Sink out.old out.new (flat_map (valued_line decimals common) points.now) result }
{
    for p in points {
        put_valued(out, b"v", p, common, decimals)?;
    }
    Ok(())
}
