//! Meshes that a program makes itself.

ghost use Rattle.std.specs.Prelude.{◌≡◌, ◌+◌, ◌*◌, ◌%◌, ◌^◌, ◌<◌, ◌≤◌, length, map, IfOk};
ghost use Rattle.std.specs.List.{All, range_with_len};
ghost use Rattle.subdiv_model.specs.Short.{IsShortPoint};
ghost use Rattle.raw_mesh.specs.Made.{ArePoints, AreQuads, AreCreases, mesh_of_quads};
ghost use Rattle.raw_mesh.specs.View.{point_of};

use crate::mesh::{Coordinates, Faces, RawMesh};
use crate::tags::{Boundary, Crease, Tags};
use ratio128::{Memory, Point3};
use sharpness_rules::Method;
use std::alloc::Global;

// The points over the denominator 1, without texture values.
fn coordinates(alloc: Global, points: Vec<Point3>) -> Coordinates
    ensures { ArePoints points.items result }
{
    Coordinates {
        points,
        scale: 1,
        texture: Vec::new(alloc),
        texture_scale: 1,
    }
}

// Where each quad begins among the corners, then where the last one ends.
fn quad_starts(alloc: Global, quads: usize) -> Result<Vec<u32>, Memory>
    requires few { quads < 2 ^ 25 }
    ensures { IfOk result (λ starts. starts.items ≡ map (λ k. 4 * k) (range_with_len 0 (quads + 1))) }
{
    let mut starts = Vec::with_capacity(alloc, quads + 1)?;
    for k in 0..quads + 1 {
        starts.push(4 * k as u32)?;
    }
    Ok(starts)
}

// The quads of these corners.
fn quads(alloc: Global, corners: Vec<u32>) -> Result<Faces, Memory>
    requires short { length corners.items < 2 ^ 27 }
    ensures { IfOk result (λ faces. AreQuads corners.items faces) }
{
    Ok(Faces {
        starts: quad_starts(alloc, corners.len() / 4)?,
        corners,
        texture_corners: Vec::new(alloc),
    })
}

// The creases, without any other tag.
fn tags(alloc: Global, creases: Vec<Crease>) -> Tags
    ensures { AreCreases creases.items result }
{
    Tags {
        creases,
        corners: Vec::new(alloc),
        holes: Vec::new(alloc),
        boundary: Boundary::EdgeOnly,
        method: Method::Normal,
    }
}

impl RawMesh {
    /// Returns a mesh of quads: each four successive `corners`, counted from 0, are the points of one.
    ///
    /// The points have denominator 1. The mesh has these creases, no texture, no corner tag and no hole. Its boundary mode is
    /// [`Boundary::EdgeOnly`] and its method [`Method::Normal`].
    ///
    /// The number of corners is a multiple of four below 2^27. Each corner and each end of a crease names a point. Each numerator is below
    /// 10^37 in amount. `Memory`: memory ran out.
    pub fn of_quads(
        alloc: Global,
        points: Vec<Point3>,
        corners: Vec<u32>,
        creases: Vec<Crease>,
    ) -> Result<RawMesh, Memory>
        requires quads { length corners.items % 4 ≡ 0 }
        requires few { length corners.items < 2 ^ 27 }
        requires short { All IsShortPoint (map point_of points.items) }
        requires vertices { All (λ v. v < length points.items) corners.items }
        requires crease_ends { All (λ c. (c.a < length points.items) × (c.b < length points.items)) creases.items }
        ensures { IfOk result (λ mesh. mesh ≡ mesh_of_quads points.items corners.items creases.items) }
    {
        let faces = quads(alloc, corners)?;
        Ok(RawMesh {
            coordinates: coordinates(alloc, points),
            faces,
            has_texture: false,
            tags: tags(alloc, creases),
        })
    }
}
