//! The arrays of a mesh.

use flat_arrays::Wide;

/// A point: three numerators over a common denominator, in two's complement.
#[repr(C)]
#[derive(Clone, Copy, Debug, PartialEq, Eq)]
pub struct WidePoint {
    pub x: Wide,
    pub y: Wide,
    pub z: Wide,
}

/// A texture value: two numerators over a common denominator, in two's complement.
#[repr(C)]
#[derive(Clone, Copy, Debug, PartialEq, Eq)]
pub struct WideValue {
    pub u: Wide,
    pub v: Wide,
}

/// The sharpness of a pair of points, counted from 0, as a fraction. Its denominator is from 1 to 2^60.
#[repr(C)]
#[derive(Clone, Copy, Debug, PartialEq, Eq)]
pub struct SharpEdge {
    pub a: u32,
    pub b: u32,
    pub sharpness_num: u64,
    pub sharpness_den: u64,
}

/// The sharpness of a point, counted from 0, as a fraction. Its denominator is from 1 to 2^60.
#[repr(C)]
#[derive(Clone, Copy, Debug, PartialEq, Eq)]
pub struct SharpPoint {
    pub point: u32,
    pub sharpness_num: u64,
    pub sharpness_den: u64,
}

/// The arrays of a mesh. Points, texture values and faces are counted from 0.
#[repr(C)]
#[derive(Clone, Copy)]
pub struct MeshArrays<'a> {
    pub points: &'a [WidePoint],
    /// The common denominator of the points, from 1 to 10^37.
    pub scale: Wide,
    pub texture: &'a [WideValue],
    /// The common denominator of the texture values, from 1 to 10^37.
    pub texture_scale: Wide,
    /// How many corners each face has.
    pub face_sizes: &'a [u32],
    /// The points of the corners of all faces, face after face.
    pub corners: &'a [u32],
    /// The texture values of these corners; empty if the mesh has no texture.
    pub texture_corners: &'a [u32],
    /// Sharp pairs of points. The last one for a pair counts.
    pub creases: &'a [SharpEdge],
    /// Sharp points. The last one for a point counts.
    pub corner_tags: &'a [SharpPoint],
    /// The faces that are holes.
    pub holes: &'a [u32],
    /// The boundary mode: 0, 1 or 2, as in the tag `interpolateboundary`.
    pub boundary: u32,
    /// How the sharpness of creases decays: 0 by one for each level, 1 by the rule `chaikin`.
    pub method: u32,
}
