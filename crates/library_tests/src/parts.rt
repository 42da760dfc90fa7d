// Meshes made from arrays.

use crate::expect::expect_same;
use ratio128::{Point2, Point3};
use raw_mesh::PartsFault::Bad;
use raw_mesh::{
    BadPart, Boundary, Coordinates, CornerTag, Crease, MeshParts, PartsFault, RawMesh, Tags,
};
use sharpness_rules::{Method, Sharpness};
use std::alloc::{AllocError, Global};

// The sizes of faces, their corners, and the texture corners.
type Lists = (&'static [u32], &'static [u32], &'static [u32]);

// The common denominators; a numerator of the last point and of the last texture value; the lists; the last end of a crease, vertex of a
// corner tag and hole; and the faces and points of the mesh, or its fault.
type Case = (
    (u128, u128),
    (i128, i128),
    Lists,
    (u32, u32, u32),
    Result<(u32, usize), PartsFault>,
);

const TOP: u128 = 10_000_000_000_000_000_000_000_000_000_000_000_000;

const LONG: i128 = -10_000_000_000_000_000_000_000_000_000_000_000_000;

const PLAIN: Lists = (&[3, 0], &[0, 1, 2], &[]);

const TEXTURED: Lists = (&[3, 0], &[0, 1, 2], &[0, 1, 1]);

const CASES: &[Case] = &[
    ((1, 1), (0, 0), PLAIN, (2, 2, 1), Ok((2, 3))),
    (
        (TOP, TOP),
        (LONG + 1, -LONG - 1),
        TEXTURED,
        (2, 2, 1),
        Ok((2, 3)),
    ),
    (
        (0, 0),
        (LONG, LONG),
        PLAIN,
        (3, 3, 2),
        Err(Bad(BadPart::PointScale)),
    ),
    (
        (TOP + 1, 1),
        (0, 0),
        PLAIN,
        (2, 2, 1),
        Err(Bad(BadPart::PointScale)),
    ),
    (
        (1, 0),
        (LONG, 0),
        PLAIN,
        (2, 2, 1),
        Err(Bad(BadPart::TextureScale)),
    ),
    (
        (1, 1),
        (LONG, LONG),
        PLAIN,
        (2, 2, 1),
        Err(Bad(BadPart::Point(2))),
    ),
    (
        (1, 1),
        (0, LONG),
        (&[4], &[0, 1, 2], &[]),
        (2, 2, 0),
        Err(Bad(BadPart::TextureValue(1))),
    ),
    (
        (1, 1),
        (0, 0),
        (&[4], &[0, 1, 3], &[0]),
        (2, 2, 0),
        Err(Bad(BadPart::FaceSizes)),
    ),
    (
        (1, 1),
        (0, 0),
        (&[3], &[0, 1, 3], &[2]),
        (2, 2, 0),
        Err(Bad(BadPart::TextureCornerCount)),
    ),
    (
        (1, 1),
        (0, 0),
        (&[3, 2], &[0, 1, 3, 4, 0], &[2, 0, 0, 0, 0]),
        (3, 2, 0),
        Err(Bad(BadPart::Corner(2))),
    ),
    (
        (1, 1),
        (0, 0),
        (&[3], &[0, 1, 2], &[1, 2, 3]),
        (3, 2, 0),
        Err(Bad(BadPart::TextureCorner(1))),
    ),
    (
        (1, 1),
        (0, 0),
        PLAIN,
        (3, 3, 2),
        Err(Bad(BadPart::Crease(1))),
    ),
    (
        (1, 1),
        (0, 0),
        PLAIN,
        (2, 3, 2),
        Err(Bad(BadPart::CornerTag(0))),
    ),
    ((1, 1), (0, 0), PLAIN, (2, 2, 2), Err(Bad(BadPart::Hole(1)))),
];

fn cases() -> &'static [Case] {
    CASES
}

// No part, over 1.
fn no_parts(alloc: Global) -> MeshParts {
    MeshParts {
        coordinates: Coordinates {
            points: Vec::new(alloc),
            scale: 1,
            texture: Vec::new(alloc),
            texture_scale: 1,
        },
        face_sizes: Vec::new(alloc),
        corners: Vec::new(alloc),
        texture_corners: Vec::new(alloc),
        tags: Tags {
            creases: Vec::new(alloc),
            corners: Vec::new(alloc),
            holes: Vec::new(alloc),
            boundary: Boundary::EdgeOnly,
            method: Method::Normal,
        },
    }
}

// Three points and two texture values. All are at the origin but the last.
fn put_coordinates(parts: &mut Coordinates, case: &Case) -> Result<(), AllocError> {
    let &((scale, texture_scale), (x, u), ..) = case;
    parts.scale = scale;
    parts.texture_scale = texture_scale;
    parts.points.push(Point3 { x: 0, y: 0, z: 0 })?;
    parts.points.push(Point3 { x: 0, y: 0, z: 0 })?;
    parts.points.push(Point3 { x, y: 0, z: 0 })?;
    parts.texture.push(Point2 { u: 0, v: 0 })?;
    parts.texture.push(Point2 { u: 0, v: u })?;
    Ok(())
}

// Two creases, a corner tag and two holes.
fn put_tags(tags: &mut Tags, case: &Case) -> Result<(), AllocError> {
    let &(_, _, _, (end, vertex, hole), _) = case;
    let sharpness = Sharpness::Infinite;
    tags.creases.push(Crease {
        a: 0,
        b: 1,
        sharpness,
    })?;
    tags.creases.push(Crease {
        a: 0,
        b: end,
        sharpness,
    })?;
    tags.corners.push(CornerTag { vertex, sharpness })?;
    tags.holes.push(0)?;
    tags.holes.push(hole)?;
    Ok(())
}

fn put_faces(parts: &mut MeshParts, case: &Case) -> Result<(), AllocError> {
    let &(_, _, (sizes, corners, textures), ..) = case;
    parts.face_sizes.extend_from_slice(sizes)?;
    parts.corners.extend_from_slice(corners)?;
    parts.texture_corners.extend_from_slice(textures)?;
    Ok(())
}

fn put_parts(parts: &mut MeshParts, case: &Case) -> Result<(), AllocError> {
    put_coordinates(&mut parts.coordinates, case)?;
    put_tags(&mut parts.tags, case)?;
    put_faces(parts, case)
}

// The faces and the points of the mesh of a case, or the fault of its parts.
fn counts_of(alloc: Global, case: &Case) -> Result<(u32, usize), PartsFault> {
    let mut parts = no_parts(alloc);
    put_parts(&mut parts, case)?;
    let mesh = RawMesh::from_parts(alloc, parts)?;
    Ok((mesh.faces(), mesh.points().len()))
}

#[test]
fn makes_a_mesh_or_names_the_first_bad_part(rt: HostRuntime) {
    for row in cases() {
        let (_, _, _, _, want) = row;
        expect_same(&rt, &counts_of(rt.alloc(), row), want, row);
    }
}
