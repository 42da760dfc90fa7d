//! The replies about a stored table: its agreement with the table of a mesh, and its points.

ghost use Rattle.std.specs.Prelude.{◌≡◌, false};
ghost use Rattle.obj_out.specs.Puts.{Puts};
ghost use Rattle.far_text.specs.Stored.{CanPointsBePut, agreement_line, point_lines};

use crate::points::put_points;
use far_io::{Sink, WriteFailed};
use obj_out::Out;
use ratio128::{Point3, Valued};

/// The points of a stored table, row by row: numerators over their own denominators, all over `common`.
#[derive(Drop)]
pub struct TablePoints {
    /// The point of each row.
    pub values: Vec<Valued<Point3>>,
    /// The common denominator of all points.
    pub common: u128,
}

/// Puts the line which says that a stored table of `rows` rows agrees with the table of a mesh. It takes no memory.
pub fn put_agreement<K: Sink>(out: &mut Out<'_, K>, rows: u32) -> Result<(), WriteFailed>
    ensures { Puts K.Sink out.old out.new (agreement_line rows) result }
{
    out.put_count(b"table agrees", rows as u64)?;
    out.put_byte(b'\n')
}

/// Puts a line for each point of a stored table, with its coordinates in lowest terms. It takes no memory.
pub fn put_table_points<K: Sink>(
    out: &mut Out<'_, K>,
    points: &TablePoints,
) -> Result<(), WriteFailed>
    requires fine { out.old.failed ≡ false }
    requires written { CanPointsBePut points.now }
    ensures { Puts K.Sink out.old out.new (point_lines points.now) result }
{
    put_points(out, &points.values, points.common, None)
}
