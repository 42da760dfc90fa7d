//! The corners of the faces of a sparse level, with their texture points if the texture has the face.

ghost use Rattle.std.specs.Prelude.{◌≡◌, ◌≤◌, false, ◌&&◌, nat_eq, nat_lt, length, map, IfSome};
ghost use Rattle.std.specs.Option.{option_map};
ghost use Rattle.std.specs.List.Sorted.{IsStrictlyIncreasing};
ghost use Rattle.subdiv_model.specs.SparseTexture.{corner_words, corners_of_face};
ghost use Rattle.sparse_level.specs.Faces.{face_at};
ghost use Rattle.obj_out.specs.Puts.{Puts};
ghost use Rattle.far_text.specs.TexturedLines.{place_in, spaced};

use crate::{faces, textured_faces};
use far_io::{Sink, WriteFailed};
use obj_out::Out;
use sparse_level::SparseFaces;

// Returns the first place, from `from` on, of a face whose number is not below `number`, or the number of faces if none is.
pub(crate) fn place_from(texture: &SparseFaces, from: u32, number: u64) -> u32
    requires { from ≤ place_in texture.now number }
    ensures { result ≡ place_in texture.now number }
{
    let mut place = from;
    while place < texture.len() && texture.number(place) < number {
        place += 1;
    }
    place
}

// Whether the place has a face with this number.
fn is_numbered(texture: &SparseFaces, place: u32, number: u64) -> bool
    ensures { result ≡ (nat_lt place (length texture.now.faces) && nat_eq number (face_at texture.now place).number) }
{
    place < texture.len() && texture.number(place) == number
}

// Returns the corners of the face with this number, if the texture has it. `place` is the first place of a face whose number is not below
// it.
pub(crate) fn corners_at(texture: &SparseFaces, place: u32, number: u64) -> Option<&[u32]>
    requires place { place ≡ place_in texture.now number }
    requires ascending { IsStrictlyIncreasing (map (λ face. face.number) texture.now.faces) }
    ensures { option_map (λ corners. corners.now) result ≡ corners_of_face texture.now number }
{
    if is_numbered(texture, place, number) {
        return Some(texture.corners(place));
    }
    None
}

// Puts the corners of a face, with their texture points if there are any.
pub(crate) fn put_sparse_corners<K: Sink>(
    out: &mut Out<'_, K>,
    corners: &[u32],
    texture: Option<&[u32]>,
) -> Result<(), WriteFailed>
    requires fine { out.old.failed ≡ false }
    requires alike { IfSome (option_map (λ points. points.now) texture) (λ points. length points ≡ length corners.now) }
    ensures { Puts K.Sink out.old out.new (spaced (corner_words corners.now (option_map (λ points. points.now) texture.entry))) result }
{
    match texture {
        Some(points) => textured_faces::put_corners(out, corners, points),
        None => faces::put_corners(out, corners),
    }
}
