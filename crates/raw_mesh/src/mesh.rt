ghost use Rattle.std.specs.Prelude.{◌≡◌, ◌+◌, ◌-◌, ◌<◌, ◌≤◌, ◌^◌, true, false, length, map, Some, slice_get, [], if◌then◌else◌};
ghost use Rattle.sharpness_rules.specs.View.{method_of};
ghost use Rattle.subdiv_model.specs.ObjMesh.{ObjMesh};
ghost use Rattle.raw_mesh.specs.Mesh.{Ascend, pieces, names_all_texture, mesh_of, mesh_of_lists, AreShort, IsWhole, AreKept};
ghost use Rattle.raw_mesh.specs.Laws.{IsWithin};
ghost use Rattle.raw_mesh.specs.View.{boundary_of, crease_of, corner_tag_of, point_of, texture_of};

use crate::tags::{Boundary, CornerTag, Crease, Tags};
use ratio128::{Point2, Point3};
use sharpness_rules::Method;
use std::marker::Model;

/// The points and the texture values of a mesh: whole numerators, each list over one common denominator.
#[derive(Drop)]
pub struct Coordinates {
    pub points: Vec<Point3>,
    /// The common denominator of the points.
    pub scale: u128,
    pub texture: Vec<Point2>,
    /// The common denominator of the texture values.
    pub texture_scale: u128,
}

/// The corners of all faces, face after face. Face f has the corners from `starts[f]` up to `starts[f + 1]`.
#[derive(Drop)]
pub struct Faces {
    pub starts: Vec<u32>,
    pub corners: Vec<u32>,
    /// The texture values of the corners. The mesh has texture if it has a face and there is one for each corner.
    pub texture_corners: Vec<u32>,
}

/// A mesh that need not be a manifold. Points, texture values and faces are counted from 0.
#[derive(Drop)]
pub struct RawMesh {
    pub(crate) coordinates: Coordinates,
    pub(crate) faces: Faces,
    pub(crate) has_texture: bool,
    pub(crate) tags: Tags,
}

impl Model for RawMesh {
    ghost Value = { ObjMesh };

    ghost view = { λ m. mesh_of m.coordinates m.faces m.has_texture m.tags };

    ghost invariant = { λ m. AreKept m.coordinates m.faces m.has_texture m.tags };
}

// The part of a list from start f up to start f + 1.
fn piece<'a>(starts: &[u32], corners: &'a [u32], f: usize) -> &'a [u32]
    requires ascend { Ascend starts.now (length corners.now) }
    requires inside { f + 1 < length starts.now }
    ensures { slice_get (pieces starts.now corners.now) f ≡ Some result.now }
{
    let from = starts[f] as usize;
    let to = starts[f + 1] as usize;
    &corners[from..to]
}

impl Faces {
    // Whether there is a face, and each corner has a texture value.
    fn has_texture(&self) -> bool
        ensures { result ≡ names_all_texture self.now }
    {
        self.starts.len() > 1 && self.texture_corners.len() == self.corners.len()
    }
}

impl RawMesh {
    /// Returns the mesh of these coordinates, faces and tags. The call tests nothing and takes no memory.
    ///
    /// Each common denominator is from 1 to 10^37, and each numerator is below 10^37 in amount. `starts` ascends and ends at the number of
    /// corners, which is below 2^27. Each corner, texture corner and tag names an item that exists.
    pub fn of(coordinates: Coordinates, faces: Faces, tags: Tags) -> RawMesh
        requires short { AreShort coordinates }
        requires whole { IsWhole (length coordinates.points.items) (length coordinates.texture.items) false faces tags }
        ensures { result ≡ mesh_of_lists coordinates faces tags }
    {
        let has_texture = faces.has_texture();
        RawMesh {
            coordinates,
            faces,
            has_texture,
            tags,
        }
    }

    /// States the bounds of every mesh to a proof; at run time it does nothing.
    ///
    /// Each common denominator is from 1 to 10^37, and each numerator is below 10^37 in amount. Each corner, texture corner and tag names
    /// an item that exists. There are fewer than 2^27 corners, and a mesh with texture has a texture value for each.
    pub fn facts(&self)
        ensures { IsWithin self.now }
    {
        let _ = &self.coordinates;
    }

    /// The points: numerators over [`RawMesh::scale`], of at most 37 digits.
    pub fn points(&self) -> &[Point3]
        ensures { map point_of result.now ≡ self.now.points }
    {
        self.coordinates.points.as_slice()
    }

    /// The common denominator of the points, from 1 to 10^37.
    pub fn scale(&self) -> u128
        ensures { result ≡ self.now.common }
    {
        self.coordinates.scale
    }

    /// The texture values: numerators over [`RawMesh::texture_scale`], of at most 37 digits.
    pub fn texture(&self) -> &[Point2]
        ensures { map texture_of result.now ≡ self.now.texture }
    {
        self.coordinates.texture.as_slice()
    }

    /// The common denominator of the texture values, from 1 to 10^37.
    pub fn texture_scale(&self) -> u128
        ensures { result ≡ self.now.texture_common }
    {
        self.coordinates.texture_scale
    }

    /// How many faces there are.
    pub fn faces(&self) -> u32
        ensures { result ≡ length self.now.faces }
    {
        (self.faces.starts.len() - 1) as u32
    }

    /// The points of the corners of face `f`, counted from 0.
    pub fn face(&self, f: u32) -> &[u32]
        requires { f < length self.now.faces }
        ensures { slice_get self.now.faces f ≡ Some result.now }
    {
        piece(&self.faces.starts, &self.faces.corners, f as usize)
    }

    /// Whether there is a face, and each corner has a texture value.
    pub fn has_texture(&self) -> bool
        ensures { result ≡ self.now.has_texture }
    {
        self.has_texture
    }

    /// The texture values of the corners of face `f`, counted from 0. The mesh has texture.
    pub fn texture_corners(&self, f: u32) -> &[u32]
        requires texture { self.now.has_texture ≡ true }
        requires face { f < length self.now.faces }
        ensures { slice_get self.now.texture_corners f ≡ Some result.now }
    {
        piece(&self.faces.starts, &self.faces.texture_corners, f as usize)
    }

    /// The boundary mode.
    pub fn boundary(&self) -> Boundary
        ensures { boundary_of result ≡ self.now.boundary }
    {
        self.tags.boundary
    }

    /// The method by which the sharpness of creases decays.
    pub fn method(&self) -> Method
        ensures { method_of result ≡ self.now.method }
    {
        self.tags.method
    }

    /// The creases, in the order given; a chain gives its pairs. A pair need not be an edge. If several name one edge, the last one counts.
    pub fn creases(&self) -> &[Crease]
        ensures { map crease_of result.now ≡ self.now.creases }
    {
        self.tags.creases.as_slice()
    }

    /// The corner tags, in the order given. If several name one point, the last one counts.
    pub fn corner_tags(&self) -> &[CornerTag]
        ensures { map corner_tag_of result.now ≡ self.now.corner_tags }
    {
        self.tags.corners.as_slice()
    }

    /// The faces that are holes, in the order given.
    pub fn holes(&self) -> &[u32]
        ensures { result.now ≡ self.now.holes }
    {
        self.tags.holes.as_slice()
    }
}
