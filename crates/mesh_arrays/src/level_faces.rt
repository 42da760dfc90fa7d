//! The sizes of faces, their corners, and the holes among them.

ghost use Rattle.std.specs.Prelude.{◌≡◌, ◌≤◌, length, map, take, drop};
ghost use Rattle.std.specs.List.{sum_by};
ghost use Rattle.mesh_arrays.specs.Flat.{corners_of, marks_of};

use flat_arrays::put_items;
use level_topology::Level;

/// Writes the number of corners of each face to the start of the array.
///
/// The array has a place for each face, and further places keep their contents.
pub fn put_face_sizes(level: &Level, out: &mut [u32])
    requires fits { length level.now.level.polygons ≤ length out.old }
    ensures written { take (length level.now.level.polygons) out.new ≡ map length level.now.level.polygons }
    ensures rest { drop (length level.now.level.polygons) out.new ≡ drop (length level.now.level.polygons) out.old }
    ensures len { length out.new ≡ length out.old }
{
    level.facts();
    for f in 0..level.faces() {
        out[f as usize] = level.face_vertices(f).len() as u32;
    }
}

/// Writes the points at the corners of all faces, counted from 0, to the start of the array, face by face.
///
/// The array has a place for each corner, and further places keep their contents.
pub fn put_corners(level: &Level, out: &mut [u32])
    requires fits { sum_by length level.now.level.polygons ≤ length out.old }
    ensures written { take (sum_by length level.now.level.polygons) out.new ≡ corners_of level.now.level.polygons }
    ensures rest { drop (sum_by length level.now.level.polygons) out.new ≡ drop (sum_by length level.now.level.polygons) out.old }
    ensures len { length out.new ≡ length out.old }
{
    let mut at = 0;
    for f in 0..level.faces() {
        let corners = level.face_vertices(f);
        put_items(out, at, corners);
        at += corners.len();
    }
}

/// Writes 1 for each hole and 0 for any other face to the start of the array.
///
/// The array has a place for each face, and further places keep their contents.
pub fn put_holes(level: &Level, out: &mut [u8])
    requires fits { length level.now.level.polygons ≤ length out.old }
    ensures written { take (length level.now.level.polygons) out.new ≡ marks_of level.now.level.holes }
    ensures rest { drop (length level.now.level.polygons) out.new ≡ drop (length level.now.level.polygons) out.old }
    ensures len { length out.new ≡ length out.old }
{
    level.facts();
    for f in 0..level.faces() {
        out[f as usize] = u8::from(level.is_hole(f));
    }
}
