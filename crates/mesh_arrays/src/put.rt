//! The lists of a mesh, written into arrays.

ghost use Rattle.std.specs.Prelude.{◌≡◌, ◌+◌, ◌*◌, ◌^◌, ◌<◌, ◌≤◌, length, map, take, drop, sum, false, true};
ghost use Rattle.std.specs.List.{All, flat_map, sum_by};
ghost use Rattle.raw_mesh.specs.View as view;
ghost use Rattle.sharpness_rules.specs.View.{sharpness_of};
ghost use Rattle.subdiv_model.specs.Sharpness.{sharpness_of_fraction};
ghost use Rattle.mesh_arrays.specs.Arrays.{point_of, value_of, crease_of, corner_tag_of, is_bad_denominator};

use crate::arrays::{SharpEdge, SharpPoint, WidePoint, WideValue};
use flat_arrays::{Wide, put_item};
use ratio128::{Point2, Point3};
use raw_mesh::{CornerTag, Crease};
use sharpness_rules::Sharpness;

fn wide_point(p: &Point3) -> WidePoint
    ensures { point_of result ≡ view.point_of p.now }
{
    WidePoint {
        x: Wide::of_integer(p.x),
        y: Wide::of_integer(p.y),
        z: Wide::of_integer(p.z),
    }
}

pub(crate) fn put_points(points: &[Point3], out: &mut [WidePoint])
    requires fits { length points.now ≤ length out.old }
    ensures written { map point_of (take (length points.now) out.new) ≡ map view.point_of points.now }
    ensures rest { drop (length points.now) out.new ≡ drop (length points.now) out.old }
    ensures len { length out.new ≡ length out.old }
{
    for k in 0..points.len() {
        put_item(out, k, wide_point(&points[k]));
    }
}

fn wide_value(p: &Point2) -> WideValue
    ensures { value_of result ≡ view.texture_of p.now }
{
    WideValue {
        u: Wide::of_integer(p.u),
        v: Wide::of_integer(p.v),
    }
}

pub(crate) fn put_values(values: &[Point2], out: &mut [WideValue])
    requires fits { length values.now ≤ length out.old }
    ensures written { map value_of (take (length values.now) out.new) ≡ map view.texture_of values.now }
    ensures rest { drop (length values.now) out.new ≡ drop (length values.now) out.old }
    ensures len { length out.new ≡ length out.old }
{
    for k in 0..values.len() {
        put_item(out, k, wide_value(&values[k]));
    }
}

// Returns a sharpness as a fraction. Infinite sharpness becomes 10.
fn fraction_of(sharpness: Sharpness) -> (u64, u64)
    ensures same { sharpness_of_fraction (result.0, result.1) ≡ sharpness_of sharpness }
    ensures good { is_bad_denominator result.1 ≡ false }
{
    match sharpness {
        Sharpness::Smooth => (0, 1),
        Sharpness::Semi(value) => (value.num(), value.den()),
        Sharpness::Infinite => (10, 1),
    }
}

fn sharp_edge(crease: &Crease) -> SharpEdge
    ensures same { crease_of result ≡ view.crease_of crease.now }
    ensures good { is_bad_denominator result.sharpness_den ≡ false }
{
    let (num, den) = fraction_of(crease.sharpness);
    SharpEdge {
        a: crease.a,
        b: crease.b,
        sharpness_num: num,
        sharpness_den: den,
    }
}

pub(crate) fn put_creases(creases: &[Crease], out: &mut [SharpEdge])
    requires fits { length creases.now ≤ length out.old }
    ensures written { map crease_of (take (length creases.now) out.new) ≡ map view.crease_of creases.now }
    ensures good { All (λ edge. is_bad_denominator edge.sharpness_den ≡ false) (take (length creases.now) out.new) }
    ensures rest { drop (length creases.now) out.new ≡ drop (length creases.now) out.old }
    ensures len { length out.new ≡ length out.old }
{
    for k in 0..creases.len() {
        put_item(out, k, sharp_edge(&creases[k]));
    }
}

fn sharp_point(tag: &CornerTag) -> SharpPoint
    ensures same { corner_tag_of result ≡ view.corner_tag_of tag.now }
    ensures good { is_bad_denominator result.sharpness_den ≡ false }
{
    let (num, den) = fraction_of(tag.sharpness);
    SharpPoint {
        point: tag.vertex,
        sharpness_num: num,
        sharpness_den: den,
    }
}

pub(crate) fn put_corner_tags(tags: &[CornerTag], out: &mut [SharpPoint])
    requires fits { length tags.now ≤ length out.old }
    ensures written { map corner_tag_of (take (length tags.now) out.new) ≡ map view.corner_tag_of tags.now }
    ensures good { All (λ point. is_bad_denominator point.sharpness_den ≡ false) (take (length tags.now) out.new) }
    ensures rest { drop (length tags.now) out.new ≡ drop (length tags.now) out.old }
    ensures len { length out.new ≡ length out.old }
{
    for k in 0..tags.len() {
        put_item(out, k, sharp_point(&tags[k]));
    }
}
