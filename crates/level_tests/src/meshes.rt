// Level 0 of meshes from tables.

ghost use Rattle.std.specs.Prelude.{◌≡◌, ◌<◌};

use crate::solids::{Fraction, Mesh, SharpEdge, TOP};
use level_topology::Level;
use mesh_check::check_mesh;
use ratio128::{Point3, Steps};
use raw_mesh::{Boundary, Coordinates, CornerTag, Crease, MeshParts, RawMesh, Tags};
use sharpness_rules::{Method, Sharpness};
use std::alloc::{AllocError, Global};
use std::process::Abort;
use std::sync::ledger::Ledger;
use std::test::Fail;

fn sharpness_of(rt: &impl Abort, (num, den): Fraction) -> Sharpness {
    assert!(rt; 0 < den);
    assert!(rt; den <= TOP);
    Sharpness::new(num, den)
}

fn creases_of(
    rt: &impl Abort,
    alloc: Global,
    edges: &[SharpEdge],
) -> Result<Vec<Crease>, AllocError> {
    let mut creases = Vec::new(alloc);
    for (a, b, s) in edges {
        let sharpness = sharpness_of(rt, *s);
        creases.push(Crease {
            a: *a,
            b: *b,
            sharpness,
        })?;
    }
    Ok(creases)
}

// The sizes of the faces, and the corners of all faces, face after face.
fn lists_of(
    rt: &impl Abort,
    alloc: Global,
    faces: &[&[u32]],
) -> Result<(Vec<u32>, Vec<u32>), AllocError> {
    let mut sizes = Vec::new(alloc);
    let mut corners = Vec::new(alloc);
    for face in faces {
        assert!(rt; face.len() <= 100);
        sizes.push(face.len() as u32)?;
        corners.extend_from_slice(face)?;
    }
    Ok((sizes, corners))
}

fn tags_of(rt: &impl Abort, alloc: Global, mesh: Mesh) -> Result<Tags, AllocError> {
    let (_, edges, vertex, s) = mesh;
    let sharpness = sharpness_of(rt, s);
    Ok(Tags {
        creases: creases_of(rt, alloc, edges)?,
        corners: vec![in alloc; CornerTag { vertex, sharpness }; 1]?,
        holes: Vec::new(alloc),
        boundary: Boundary::EdgeOnly,
        method: Method::Normal,
    })
}

// All points are at the origin.
fn parts_of(rt: &impl Abort, alloc: Global, mesh: Mesh) -> Result<MeshParts, AllocError> {
    let (face_sizes, corners) = lists_of(rt, alloc, mesh.0.faces)?;
    let origin = Point3 { x: 0, y: 0, z: 0 };
    Ok(MeshParts {
        coordinates: Coordinates {
            points: vec![in alloc; origin; mesh.0.points as usize]?,
            scale: 1,
            texture: Vec::new(alloc),
            texture_scale: 1,
        },
        face_sizes,
        corners,
        texture_corners: Vec::new(alloc),
        tags: tags_of(rt, alloc, mesh)?,
    })
}

// Level 0 of a mesh. Each edge of its boundary is infinitely sharp too.
pub fn level_of<L: Ledger>(
    rt: &impl Abort,
    alloc: Global,
    mesh: Mesh,
    steps: &mut Steps<L>,
) -> Result<Level, Fail> {
    let raw = RawMesh::from_parts(alloc, parts_of(rt, alloc, mesh)?)?;
    Ok(check_mesh(alloc, &raw, steps)?)
}
