//! The mesh of arrays.

ghost use Rattle.std.specs.Prelude.{◌≡◌, ◌≤◌, ◌^◌, ◌<◌, map, None, false, IfOk, MatchResult};
ghost use Rattle.std.specs.List.{All};
ghost use Rattle.raw_mesh.specs.View as view;
ghost use Rattle.sharpness_rules.specs.View.{sharpness_of, method_of};
ghost use Rattle.subdiv_model.specs.Sharpness.{sharpness_of_fraction};
ghost use Rattle.mesh_arrays.specs.Arrays.{point_of, value_of, crease_of, corner_tag_of, boundary_of_code, method_of_code, is_bad_denominator};
ghost use Rattle.mesh_arrays.specs.Faults.{AreCoordinatesOf, AreTagsOf, ArePartsOf, IsArraysFault, IsMeshOf, bad_option};

use crate::arrays::{MeshArrays, SharpEdge, SharpPoint, WidePoint, WideValue};
use crate::bad_option::first_bad_option;
use crate::fault::{ArraysFault, fault_of_parts};
use ratio128::{Point2, Point3};
use raw_mesh::{Boundary, Coordinates, CornerTag, Crease, MeshParts, RawMesh, Tags};
use sharpness_rules::{Method, Sharpness};
use std::alloc::{AllocError, Global};

fn point(p: &WidePoint) -> Point3
    ensures { view.point_of result ≡ point_of p.now }
{
    Point3 {
        x: p.x.integer(),
        y: p.y.integer(),
        z: p.z.integer(),
    }
}

fn points_of(alloc: Global, points: &[WidePoint]) -> Result<Vec<Point3>, AllocError>
    ensures { IfOk result (λ all. map view.point_of all.items ≡ map point_of points.now) }
{
    let mut all = Vec::with_capacity(alloc, points.len())?;
    for p in points {
        all.push(point(p))?;
    }
    Ok(all)
}

fn value(p: &WideValue) -> Point2
    ensures { view.texture_of result ≡ value_of p.now }
{
    Point2 {
        u: p.u.integer(),
        v: p.v.integer(),
    }
}

fn values_of(alloc: Global, values: &[WideValue]) -> Result<Vec<Point2>, AllocError>
    ensures { IfOk result (λ all. map view.texture_of all.items ≡ map value_of values.now) }
{
    let mut all = Vec::with_capacity(alloc, values.len())?;
    for p in values {
        all.push(value(p))?;
    }
    Ok(all)
}

// Returns the sharpness of a fraction with a denominator from 1 to 2^60.
fn sharpness(num: u64, den: u64) -> Sharpness
    requires { is_bad_denominator den ≡ false }
    ensures { sharpness_of result ≡ sharpness_of_fraction (num, den) }
{
    Sharpness::new(num, den)
}

// Returns the crease of an edge whose sharpness has a denominator from 1 to 2^60.
fn crease(edge: &SharpEdge) -> Crease
    requires { is_bad_denominator edge.now.sharpness_den ≡ false }
    ensures { view.crease_of result ≡ crease_of edge.now }
{
    Crease {
        a: edge.a,
        b: edge.b,
        sharpness: sharpness(edge.sharpness_num, edge.sharpness_den),
    }
}

fn creases_of(alloc: Global, creases: &[SharpEdge]) -> Result<Vec<Crease>, AllocError>
    requires { All (λ edge. is_bad_denominator edge.sharpness_den ≡ false) creases.now }
    ensures { IfOk result (λ all. map view.crease_of all.items ≡ map crease_of creases.now) }
{
    let mut all = Vec::with_capacity(alloc, creases.len())?;
    for edge in creases {
        all.push(crease(edge))?;
    }
    Ok(all)
}

// Returns the tag of a point whose sharpness has a denominator from 1 to 2^60.
fn corner_tag(tag: &SharpPoint) -> CornerTag
    requires { is_bad_denominator tag.now.sharpness_den ≡ false }
    ensures { view.corner_tag_of result ≡ corner_tag_of tag.now }
{
    CornerTag {
        vertex: tag.point,
        sharpness: sharpness(tag.sharpness_num, tag.sharpness_den),
    }
}

fn corner_tags_of(alloc: Global, tags: &[SharpPoint]) -> Result<Vec<CornerTag>, AllocError>
    requires { All (λ tag. is_bad_denominator tag.sharpness_den ≡ false) tags.now }
    ensures { IfOk result (λ all. map view.corner_tag_of all.items ≡ map corner_tag_of tags.now) }
{
    let mut all = Vec::with_capacity(alloc, tags.len())?;
    for tag in tags {
        all.push(corner_tag(tag))?;
    }
    Ok(all)
}

fn boundary_of(code: u32) -> Boundary
    ensures { view.boundary_of result ≡ boundary_of_code code }
{
    match code {
        0 => Boundary::Hidden,
        1 => Boundary::EdgeAndCorner,
        _ => Boundary::EdgeOnly,
    }
}

fn method_from(code: u32) -> Method
    ensures { method_of result ≡ method_of_code code }
{
    match code {
        0 => Method::Normal,
        _ => Method::Chaikin,
    }
}

fn coordinates_of(alloc: Global, arrays: &MeshArrays) -> Result<Coordinates, AllocError>
    ensures { IfOk result (AreCoordinatesOf arrays.now) }
{
    Ok(Coordinates {
        points: points_of(alloc, arrays.points)?,
        scale: arrays.scale.natural(),
        texture: values_of(alloc, arrays.texture)?,
        texture_scale: arrays.texture_scale.natural(),
    })
}

fn tags_of(alloc: Global, arrays: &MeshArrays) -> Result<Tags, AllocError>
    requires { bad_option arrays.now ≡ None }
    ensures { IfOk result (AreTagsOf arrays.now) }
{
    Ok(Tags {
        creases: creases_of(alloc, arrays.creases)?,
        corners: corner_tags_of(alloc, arrays.corner_tags)?,
        holes: arrays.holes.to_vec(alloc)?,
        boundary: boundary_of(arrays.boundary),
        method: method_from(arrays.method),
    })
}

fn parts_of(alloc: Global, arrays: &MeshArrays) -> Result<MeshParts, AllocError>
    requires { bad_option arrays.now ≡ None }
    ensures { IfOk result (ArePartsOf arrays.now) }
{
    Ok(MeshParts {
        coordinates: coordinates_of(alloc, arrays)?,
        face_sizes: arrays.face_sizes.to_vec(alloc)?,
        corners: arrays.corners.to_vec(alloc)?,
        texture_corners: arrays.texture_corners.to_vec(alloc)?,
        tags: tags_of(alloc, arrays)?,
    })
}

/// Returns the mesh of the arrays. It has texture if there is a face and a texture corner for each corner.
///
/// The error is the first fault, in the order of the variants of [`ArraysFault`], and for `Part` of those of `BadPart`. Within one kind it
/// is at the least place. `Memory`: memory ran out.
pub fn mesh_of_arrays(alloc: Global, arrays: &MeshArrays) -> Result<RawMesh, ArraysFault>
    ensures { MatchResult result (IsMeshOf arrays.now) (IsArraysFault arrays.now) }
{
    match first_bad_option(arrays) {
        Some(fault) => return Err(fault),
        None => {}
    }
    let parts = parts_of(alloc, arrays)?;
    match RawMesh::from_parts(alloc, parts) {
        Ok(mesh) => Ok(mesh),
        Err(fault) => Err(fault_of_parts(fault)),
    }
}
