//! All faults of a mesh in arrays.

use crate::cages::faces;
use array_answers::{FaultRecord, faults_of_arrays};
use mesh_check::MeshFault;
use std::alloc::Global;

// The sizes and the corners of faces, and their faults.
type Faces = (&'static [u32], &'static [u32], &'static [MeshFault]);

const FACES: &[Faces] = &[
    // Three triangles at each of two edges, and a face of two corners behind them. Two of the three sides have one direction.
    (
        &[3, 3, 3, 3, 3, 3, 2],
        &[0, 1, 2, 1, 0, 3, 0, 1, 4, 6, 5, 2, 5, 6, 3, 6, 5, 4, 7, 0],
        &[
            MeshFault::FaceTooSmall(6),
            MeshFault::NonManifoldEdge(0, 1),
            MeshFault::NonManifoldEdge(6, 5),
            MeshFault::WindingClash(0, 1),
            MeshFault::WindingClash(6, 5),
        ],
    ),
    // A face of two corners behind one that has a vertex twice. The check looks at no vertex, though two triangles touch in one vertex
    // only.
    (
        &[3, 3, 4, 2],
        &[0, 1, 2, 0, 3, 4, 5, 6, 5, 7, 8, 9],
        &[MeshFault::FaceTooSmall(3), MeshFault::RepeatedVertex(2)],
    ),
    // Two pairs of triangles. Each pair touches in one vertex.
    (
        &[3; 4],
        &[5, 6, 7, 0, 1, 2, 5, 8, 9, 0, 3, 4],
        &[MeshFault::SplitVertex(0), MeshFault::SplitVertex(5)],
    ),
    // A triangle, and points without a face.
    (&[3], &[0, 1, 2], &[]),
];

fn all_faces() -> &'static [Faces] {
    FACES
}

// Whether these are all faults of the faces over ten points.
fn are_all_faults(alloc: Global, row: &Faces) -> Result<bool, FaultRecord> {
    let &(sizes, corners, faults) = row;
    let found = faults_of_arrays(alloc, &faces(sizes, corners))?;
    Ok(found.as_slice() == faults)
}

#[test]
fn all_faults_of_a_mesh_are_listed(rt: HostRuntime) {
    for row in all_faces() {
        assert_eq!(rt; are_all_faults(rt.alloc(), row), Ok(true));
    }
}
