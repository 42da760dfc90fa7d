//! Counts that exceed their limits.

ghost use Rattle.std.specs.Prelude.{◌≡◌, length, map};
ghost use Rattle.subdiv_model.specs.Lists.{first_of};
ghost use Rattle.subdiv_model.specs.Limits.{large_faces};
ghost use Rattle.mesh_check.specs.Counts.{size_faults, count_named};

use level_topology::Counted;
use ratio128::limits::{MESH_LIMIT, SIZE_LIMIT};
use raw_mesh::RawMesh;

// Returns the first face with too many corners, and their number.
fn large_face(raw: &RawMesh) -> Option<(u32, u64)>
    ensures { result ≡ first_of (map (λ face. (face.0, length face.1)) (large_faces raw.now)) }
{
    for f in 0..raw.faces() {
        let size = raw.face(f).len();
        if size > SIZE_LIMIT {
            return Some((f, size as u64));
        }
    }
    None
}

// Returns the first count that is too great, of points, of faces and of the corners of a face.
pub(crate) fn size_fault(raw: &RawMesh) -> Option<Counted>
    ensures { count_named result ≡ first_of (size_faults raw.now) }
{
    let points = raw.points().len();
    if points > MESH_LIMIT {
        return Some(Counted::Points(points as u64));
    }
    let faces = raw.faces();
    if faces as usize > MESH_LIMIT {
        return Some(Counted::Faces(faces as u64));
    }
    match large_face(raw) {
        Some(found) => Some(Counted::FaceSize {
            face: found.0,
            size: found.1,
        }),
        None => None,
    }
}
