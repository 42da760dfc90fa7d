//! The faces of a mesh, written into arrays.

ghost use Rattle.std.specs.Prelude.{◌≡◌, ◌<◌, ◌≤◌, ◌^◌, length, map, take, drop, true, Some, slice_get};
ghost use Rattle.std.specs.List.{flat_map, sum_by};

use flat_arrays::{put_item, put_items};
use raw_mesh::RawMesh;

pub(crate) fn put_sizes(mesh: &RawMesh, out: &mut [u32])
    requires fits { length mesh.now.faces ≤ length out.old }
    ensures written { take (length mesh.now.faces) out.new ≡ map length mesh.now.faces }
    ensures rest { drop (length mesh.now.faces) out.new ≡ drop (length mesh.now.faces) out.old }
    ensures len { length out.new ≡ length out.old }
{
    mesh.facts();
    for f in 0..mesh.faces() {
        put_item(out, f as usize, mesh.face(f).len() as u32);
    }
}

pub(crate) fn put_corners(mesh: &RawMesh, out: &mut [u32])
    requires fits { sum_by length mesh.now.faces ≤ length out.old }
    ensures written { take (sum_by length mesh.now.faces) out.new ≡ flat_map (λ face. face) mesh.now.faces }
    ensures rest { drop (sum_by length mesh.now.faces) out.new ≡ drop (sum_by length mesh.now.faces) out.old }
    ensures len { length out.new ≡ length out.old }
{
    let mut at = 0;
    for f in 0..mesh.faces() {
        let face = mesh.face(f);
        put_items(out, at, face);
        at += face.len();
    }
}

pub(crate) fn put_texture_corners(mesh: &RawMesh, out: &mut [u32])
    requires textured { mesh.now.has_texture ≡ true }
    requires fits { sum_by length mesh.now.texture_corners ≤ length out.old }
    ensures written { take (sum_by length mesh.now.texture_corners) out.new ≡ flat_map (λ face. face) mesh.now.texture_corners }
    ensures rest { drop (sum_by length mesh.now.texture_corners) out.new ≡ drop (sum_by length mesh.now.texture_corners) out.old }
    ensures len { length out.new ≡ length out.old }
{
    mesh.facts();
    let mut at = 0;
    for f in 0..mesh.faces() {
        let face = mesh.texture_corners(f);
        put_items(out, at, face);
        at += face.len();
    }
}
