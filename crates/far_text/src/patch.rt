//! The lines of the patch of a face: one for the face and its grid, and one for each place with its point.

ghost use Rattle.std.specs.Prelude.{◌≡◌, ◌<◌, ◌+◌, ◌*◌, ◌∷◌, ◌++◌, codes, false};
ghost use Rattle.std.specs.List.{flat_map, zip};
ghost use Rattle.subdiv_model.specs.NumberText.{number_text};
ghost use Rattle.subdiv_model.specs.Patch.{patch_places, place_line};
ghost use Rattle.obj_out.specs.Puts.{Puts};
ghost use Rattle.far_text.specs.Points.{CanBeWritten, point_of, points_of};
ghost use Rattle.far_text.specs.PatchLines.{CanPatchBePut, face_line, patch_lines};
ghost use Rattle.far_text.specs.CountLines.{count_words};

use crate::points::put_coordinates;
use far_io::{Sink, WriteFailed};
use obj_out::Out;
use ratio128::{Point3, Valued};

/// The points of the patch of a face, row by row, on a grid of `grid` steps along each side. They are numerators over their own
/// denominators, all over `common`.
///
/// The face is counted from 0. The point of the place (i, j) has the number j * (grid + 1) + i.
#[derive(Drop)]
pub struct PatchPoints {
    /// The number of the face.
    pub face: u32,
    /// The number of steps along each side.
    pub grid: u32,
    /// The point of each place.
    pub values: Vec<Valued<Point3>>,
    /// The common denominator of all points.
    pub common: u128,
}

// Puts the line of the face and its grid.
fn put_face<K: Sink>(out: &mut Out<'_, K>, face: u32, grid: u32) -> Result<(), WriteFailed>
    ensures { Puts K.Sink out.old out.new (face_line face grid) result }
{
    out.put_count(b"patch face", face as u64)?;
    out.put_count(b" grid", grid as u64)?;
    out.put_byte(b'\n')
}

// Returns the place (i, j) of a point, given the number of points in a row.
pub(crate) fn place_of(number: u64, side: u64) -> (u64, u64)
    requires { 0 < side }
    ensures within { result.0 < side }
    ensures number { result.1 * side + result.0 ≡ number }
{
    (number % side, number / side)
}

// Puts the start of a place's line: a keyword and the place.
pub(crate) fn put_place<K: Sink>(
    out: &mut Out<'_, K>,
    keyword: &[u8],
    place: (u64, u64),
) -> Result<(), WriteFailed>
    ensures { Puts K.Sink out.old out.new (count_words keyword.now place.0 ++ (32 ∷ number_text place.1)) result }
{
    out.put_count(keyword, place.0)?;
    out.put_number_after(b' ', place.1)
}

// Puts the line of a place with its point, in lowest terms.
fn put_place_line<K: Sink>(
    out: &mut Out<'_, K>,
    place: (u64, u64),
    point: &Valued<Point3>,
    common: u128,
) -> Result<(), WriteFailed>
    requires { CanBeWritten common point.now }
    ensures { Puts K.Sink out.old out.new (place_line (place, point_of common point.now)) result }
{
    put_place(out, b"s", place)?;
    put_coordinates(out, &point.value, point.den * common, None)
}

// Puts a line for each place.
fn put_places<K: Sink>(out: &mut Out<'_, K>, patch: &PatchPoints) -> Result<(), WriteFailed>
    requires fine { out.old.failed ≡ false }
    requires written { CanPatchBePut patch.now }
    ensures { Puts K.Sink out.old out.new (flat_map place_line (zip (patch_places patch.now.grid) (points_of patch.now.common patch.now.values.items))) result }
{
    let side = patch.grid as u64 + 1;
    for number in 0..patch.values.len() {
        let place = place_of(number as u64, side);
        put_place_line(out, place, &patch.values[number], patch.common)?;
    }
    Ok(())
}

/// Puts the text of a patch: a line with the face and its grid, then a line for each place with its point, row by row. The points are in
/// lowest terms. The call takes no memory.
pub fn put_patch<K: Sink>(out: &mut Out<'_, K>, patch: &PatchPoints) -> Result<(), WriteFailed>
    requires fine { out.old.failed ≡ false }
    requires written { CanPatchBePut patch.now }
    ensures { Puts K.Sink out.old out.new (patch_lines patch.now) result }
{
    put_face(out, patch.face, patch.grid)?;
    put_places(out, patch)
}
