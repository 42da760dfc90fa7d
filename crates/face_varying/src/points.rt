//! The vertex and the texture value of each channel point.

ghost use Rattle.std.specs.Prelude.{◌≡◌, ◌<◌, ◌++◌, ◌∷◌, [], length, map, IfOk, OnOk};
ghost use Rattle.std.specs.List.{All};
ghost use Rattle.subdiv_model.specs.Cut.{channel_points, channel_values};
ghost use Rattle.raw_mesh.specs.View.{texture_of};
ghost use Rattle.face_varying.specs.Corners.{corner_numbers};
ghost use Rattle.face_varying.specs.Cut.{IsCuttable};
ghost use Rattle.face_varying.specs.FirstOnes.{first_ones, with_first};
ghost use Rattle.face_varying.specs.TextureValues.{texture_values, value_at, values_at};

use level_topology::Level;
use ratio128::{Memory, Point2};
use raw_mesh::RawMesh;
use std::alloc::Global;

// The vertex and the texture value of each channel point.
#[derive(Drop)]
pub(crate) struct ChannelPoints {
    pub(crate) vertices: Vec<u32>,
    pub(crate) values: Vec<Point2>,
}

// Adds a point: its vertex, and the value of a texture number.
fn push_point(
    points: &mut ChannelPoints,
    vertex: u32,
    corner: u32,
    texture: &[Point2],
) -> Result<(), Memory>
    requires { corner < length texture.now }
    ensures vertices { OnOk result (points.new.vertices.items ≡ points.old.vertices.items ++ vertex ∷ []) }
    ensures values { OnOk result (texture_values points.new ≡ texture_values points.old ++ value_at (map texture_of texture.now) corner ∷ []) }
{
    points.vertices.push(vertex)?;
    points.values.push(texture[corner as usize])?;
    Ok(())
}

// Adds the point of a corner, if its number equals the number of points so far. The point gets the corner's vertex and the
// value of its texture number.
fn add_corner(
    points: &mut ChannelPoints,
    number: u32,
    vertex: u32,
    corner: u32,
    texture: &[Point2],
) -> Result<(), Memory>
    requires { corner < length texture.now }
    ensures vertices { OnOk result (points.new.vertices.items ≡ with_first (length points.old.vertices.items) number points.old.vertices.items vertex) }
    ensures values { OnOk result (texture_values points.new ≡ with_first (length points.old.vertices.items) number (texture_values points.old) (value_at (map texture_of texture.now) corner)) }
{
    if number as usize == points.vertices.len() {
        push_point(points, vertex, corner, texture)?;
    }
    Ok(())
}

// Adds the points of the corners of a face that appear first there, from the number, the vertex and the texture number of
// each corner.
fn add_face(
    points: &mut ChannelPoints,
    numbers: &[u32],
    vertices: &[u32],
    corners: &[u32],
    texture: &[Point2],
) -> Result<(), Memory>
    requires vertices { length vertices.now ≡ length numbers.now }
    requires corners { length corners.now ≡ length numbers.now }
    requires within { All (λ t. t < length texture.now) corners.now }
    ensures vertices { OnOk result (points.new.vertices.items ≡ points.old.vertices.items ++ first_ones (length points.old.vertices.items) numbers.now vertices.now) }
    ensures values { OnOk result (texture_values points.new ≡ texture_values points.old ++ first_ones (length points.old.vertices.items) numbers.now (values_at texture.now corners.now)) }
{
    for c in 0..numbers.len() {
        add_corner(points, numbers[c], vertices[c], corners[c], texture)?;
    }
    Ok(())
}

// Returns the vertex and the value of each channel point. Both come from the corner at which the point appears first.
pub(crate) fn channel_points(
    alloc: Global,
    raw: &RawMesh,
    level: &Level,
    numbers: &[u32],
) -> Result<ChannelPoints, Memory>
    requires cuttable { IsCuttable raw.now level.now }
    requires numbers { numbers.now ≡ corner_numbers raw.now }
    ensures vertices { IfOk result (λ points. points.vertices.items ≡ map (λ point. point.0) (channel_points raw.now)) }
    ensures values { IfOk result (λ points. map texture_of points.values.items ≡ channel_values raw.now) }
{
    let mut points = ChannelPoints {
        vertices: Vec::new(alloc),
        values: Vec::new(alloc),
    };
    let mut rest = numbers;
    for f in 0..level.faces() {
        let vertices = level.face_vertices(f);
        let (own, others) = rest.split_at(vertices.len());
        add_face(
            &mut points,
            own,
            vertices,
            raw.texture_corners(f),
            raw.texture(),
        )?;
        rest = others;
    }
    Ok(points)
}
