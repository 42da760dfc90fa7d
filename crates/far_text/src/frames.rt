//! The lines of a frame.

ghost use Rattle.std.specs.Prelude.{◌≡◌};
ghost use Rattle.obj_out.specs.Puts.{Puts};
ghost use Rattle.far_text.specs.Frames.{frame_line, valued_changed_line};
ghost use Rattle.far_text.specs.Points.{CanBeWritten};

use crate::points::put_coordinates;
use far_io::{Sink, WriteFailed};
use obj_out::Out;
use ratio128::{Point3, Valued};

/// Puts the first line of a frame: the number of changed points. It takes no memory.
pub fn put_frame_count<K: Sink>(out: &mut Out<'_, K>, count: u32) -> Result<(), WriteFailed>
    ensures { Puts K.Sink out.old out.new (frame_line count) result }
{
    out.put_count(b"frame", count as u64)?;
    out.put_byte(b'\n')
}

/// Puts the line of a changed point: its number, counted from 0, and its coordinates in lowest terms. The numerators of `point` are over
/// its own denominator times `common`. The call takes no memory.
pub fn put_changed<K: Sink>(
    out: &mut Out<'_, K>,
    number: u32,
    point: &Valued<Point3>,
    common: u128,
) -> Result<(), WriteFailed>
    requires { CanBeWritten common point.now }
    ensures { Puts K.Sink out.old out.new (valued_changed_line common number point.now) result }
{
    out.put_count(b"p", number as u64)?;
    put_coordinates(out, &point.value, point.den * common, None)
}
