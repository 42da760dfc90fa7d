//! The first fault of the parts of a mesh.

ghost use Rattle.std.specs.Prelude.{◌≡◌, ◌≤◌, ◌^◌, length, sum, nat_le, ◌||◌};
ghost use Rattle.std.specs.List.{position};
ghost use Rattle.raw_mesh.specs.Parts as spec;

use crate::fault::BadPart;
use crate::mesh::Coordinates;
use crate::parts::MeshParts;
use crate::tags::{CornerTag, Crease, Tags};
use ratio128::limits::NUMERAL_BOUND;
use ratio128::{Point2, Point3};

// Whether a common denominator is from 1 to 10^37.
fn is_scale(scale: u128) -> bool
    ensures { result ≡ spec.is_scale scale }
{
    0 < scale && scale <= NUMERAL_BOUND
}

// Whether a point has a numerator of 10^37 or more in amount.
fn is_long_point(point: &Point3) -> bool
    ensures { result ≡ spec.is_long_point point.now }
{
    point.x.unsigned_abs() >= NUMERAL_BOUND
        || point.y.unsigned_abs() >= NUMERAL_BOUND
        || point.z.unsigned_abs() >= NUMERAL_BOUND
}

// Whether a texture value has a numerator of 10^37 or more in amount.
fn is_long_value(value: &Point2) -> bool
    ensures { result ≡ spec.is_long_value value.now }
{
    value.u.unsigned_abs() >= NUMERAL_BOUND || value.v.unsigned_abs() >= NUMERAL_BOUND
}

// The place of the first point with such a numerator.
fn long_point(points: &[Point3]) -> Option<usize>
    ensures { result ≡ position spec.is_long_point points.now }
{
    points.iter().position(|point| is_long_point(point))
}

// The place of the first texture value with such a numerator.
fn long_value(values: &[Point2]) -> Option<usize>
    ensures { result ≡ position spec.is_long_value values.now }
{
    values.iter().position(|value| is_long_value(value))
}

// The place of the first number that is `count` or more.
fn first_beyond(numbers: &[u32], count: usize) -> Option<usize>
    ensures { result ≡ position (nat_le count) numbers.now }
{
    numbers.iter().position(|number| *number as usize >= count)
}

// The place of the first crease with an end that names no point.
fn crease_beyond(creases: &[Crease], points: usize) -> Option<usize>
    ensures { result ≡ position (λ crease. nat_le points crease.a || nat_le points crease.b) creases.now }
{
    creases.iter().position(|crease| crease.a as usize >= points || crease.b as usize >= points)
}

// The place of the first corner tag that names no point.
fn corner_tag_beyond(tags: &[CornerTag], points: usize) -> Option<usize>
    ensures { result ≡ position (λ tag. nat_le points tag.vertex) tags.now }
{
    tags.iter().position(|tag| tag.vertex as usize >= points)
}

// How many corners faces of these sizes have in all.
fn corner_count(sizes: &[u32]) -> u64
    requires { length sizes.now ≤ 2 ^ 28 }
    ensures { result ≡ sum sizes.now }
{
    let mut count = 0;
    for size in sizes {
        count += u64::from(*size);
    }
    count
}

// The first fault of the coordinates.
fn bad_coordinates(coordinates: &Coordinates) -> Option<BadPart>
    ensures { result ≡ spec.bad_coordinates coordinates.now }
{
    if !is_scale(coordinates.scale) {
        return Some(BadPart::PointScale);
    }
    if !is_scale(coordinates.texture_scale) {
        return Some(BadPart::TextureScale);
    }
    if let Some(place) = long_point(&coordinates.points) {
        return Some(BadPart::Point(place));
    }
    match long_value(&coordinates.texture) {
        Some(place) => Some(BadPart::TextureValue(place)),
        None => None,
    }
}

// The first fault of the counts of faces and corners.
fn bad_counts(parts: &MeshParts) -> Option<BadPart>
    ensures { result ≡ spec.bad_counts parts.now }
{
    if parts.face_sizes.len() > 1 << 28 {
        return Some(BadPart::FaceCount);
    }
    if parts.corners.len() >= 1 << 27 {
        return Some(BadPart::CornerCount);
    }
    if corner_count(&parts.face_sizes) != parts.corners.len() as u64 {
        return Some(BadPart::FaceSizes);
    }
    if parts.texture_corners.len() != 0 && parts.texture_corners.len() != parts.corners.len() {
        return Some(BadPart::TextureCornerCount);
    }
    None
}

// The first corner that names no point or no texture value.
fn bad_corners(parts: &MeshParts) -> Option<BadPart>
    ensures { result ≡ spec.bad_corners parts.now }
{
    if let Some(place) = first_beyond(&parts.corners, parts.coordinates.points.len()) {
        return Some(BadPart::Corner(place));
    }
    match first_beyond(&parts.texture_corners, parts.coordinates.texture.len()) {
        Some(place) => Some(BadPart::TextureCorner(place)),
        None => None,
    }
}

// The first tag that names no point or no face.
fn bad_tags(tags: &Tags, points: usize, faces: usize) -> Option<BadPart>
    ensures { result ≡ spec.bad_tags points faces tags.now }
{
    if let Some(place) = crease_beyond(&tags.creases, points) {
        return Some(BadPart::Crease(place));
    }
    if let Some(place) = corner_tag_beyond(&tags.corners, points) {
        return Some(BadPart::CornerTag(place));
    }
    match first_beyond(&tags.holes, faces) {
        Some(place) => Some(BadPart::Hole(place)),
        None => None,
    }
}

// The first fault of the parts.
pub(crate) fn first_bad_part(parts: &MeshParts) -> Option<BadPart>
    ensures { result ≡ spec.bad_part parts.now }
{
    let points = parts.coordinates.points.len();
    let faces = parts.face_sizes.len();
    bad_coordinates(&parts.coordinates)
        .or(bad_counts(parts))
        .or(bad_corners(parts))
        .or(bad_tags(&parts.tags, points, faces))
}
