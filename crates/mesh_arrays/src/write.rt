//! A mesh written into arrays.

ghost use Rattle.std.specs.Prelude.{◌≡◌, ◌≤◌, ◌<◌, ◌^◌, length, drop, true};
ghost use Rattle.std.specs.List.{sum_by};
ghost use Rattle.sharpness_rules.specs.View as rules;
ghost use Rattle.raw_mesh.specs.View as view;
ghost use Rattle.mesh_arrays.specs.Arrays.{boundary_of_code, method_of_code};
ghost use Rattle.mesh_arrays.specs.Written as spec;

use crate::places::{MeshCounts, MeshOptions, MeshPlaces};
use crate::put::{put_corner_tags, put_creases, put_points, put_values};
use crate::put_faces::{put_corners, put_sizes, put_texture_corners};
use flat_arrays::{Wide, put_items};
use raw_mesh::{Boundary, RawMesh};
use sharpness_rules::Method;

// Returns how many corners all faces have.
fn count_corners(mesh: &RawMesh) -> u64
    ensures { result ≡ sum_by length mesh.now.faces }
{
    mesh.facts();
    let mut count = 0;
    for f in 0..mesh.faces() {
        count += mesh.face(f).len() as u64;
    }
    count
}

/// Returns how many items each array of a mesh has.
pub fn counts_of(mesh: &RawMesh) -> MeshCounts
    ensures { result ≡ spec.counts_of mesh.now }
{
    let corners = count_corners(mesh);
    MeshCounts {
        points: mesh.points().len() as u64,
        texture: mesh.texture().len() as u64,
        faces: mesh.faces() as u64,
        corners,
        texture_corners: if mesh.has_texture() { corners } else { 0 },
        creases: mesh.creases().len() as u64,
        corner_tags: mesh.corner_tags().len() as u64,
        holes: mesh.holes().len() as u64,
    }
}

fn code_of_boundary(boundary: Boundary) -> u32
    ensures same { boundary_of_code result ≡ view.boundary_of boundary }
    ensures known { result ≤ 2 }
{
    match boundary {
        Boundary::Hidden => 0,
        Boundary::EdgeAndCorner => 1,
        Boundary::EdgeOnly => 2,
    }
}

fn code_of_method(method: Method) -> u32
    ensures same { method_of_code result ≡ rules.method_of method }
    ensures known { result ≤ 1 }
{
    match method {
        Method::Normal => 0,
        Method::Chaikin => 1,
    }
}

/// Returns the common denominators, the boundary mode and the method of a mesh.
pub fn options_of(mesh: &RawMesh) -> MeshOptions
    ensures { spec.AreOptionsOf mesh.now result }
{
    MeshOptions {
        scale: Wide::of_natural(mesh.scale()),
        texture_scale: Wide::of_natural(mesh.texture_scale()),
        boundary: code_of_boundary(mesh.boundary()),
        method: code_of_method(mesh.method()),
    }
}

/// Returns whether each array has a place for each of its items.
pub fn are_long_enough(counts: &MeshCounts, places: &MeshPlaces) -> bool
    ensures { result ≡ spec.are_long_enough counts.now places.now }
{
    counts.points <= places.points.len() as u64
        && counts.texture <= places.texture.len() as u64
        && counts.faces <= places.face_sizes.len() as u64
        && counts.corners <= places.corners.len() as u64
        && counts.texture_corners <= places.texture_corners.len() as u64
        && counts.creases <= places.creases.len() as u64
        && counts.corner_tags <= places.corner_tags.len() as u64
        && counts.holes <= places.holes.len() as u64
}

// Writes the texture corners of the faces if the mesh has texture.
fn put_texture(mesh: &RawMesh, out: &mut [u32])
    requires { mesh.now.has_texture ≡ true → sum_by length mesh.now.faces ≤ length out.old }
    ensures written { mesh.now.has_texture ≡ true → spec.IsTextureWritten mesh.now out.new }
    ensures rest { drop (spec.counts_of mesh.now).texture_corners out.new ≡ drop (spec.counts_of mesh.now).texture_corners out.old }
    ensures len { length out.new ≡ length out.old }
{
    mesh.facts();
    if mesh.has_texture() {
        put_texture_corners(mesh, out);
    }
}

/// Writes a mesh to the start of the arrays. Each array has a place for each item that [`counts_of`] counts. Further places keep their
/// contents.
pub fn put_mesh(mesh: &RawMesh, places: &mut MeshPlaces)
    requires { spec.are_long_enough (spec.counts_of mesh.now) places.old ≡ true }
    ensures written { spec.IsWritten mesh.now places.new }
    ensures rest { spec.IsRestKept (spec.counts_of mesh.now) places.old places.new }
    ensures places { spec.AreSamePlaces places.old places.new }
{
    put_points(mesh.points(), places.points);
    put_values(mesh.texture(), places.texture);
    put_sizes(mesh, places.face_sizes);
    put_corners(mesh, places.corners);
    put_texture(mesh, places.texture_corners);
    put_creases(mesh.creases(), places.creases);
    put_corner_tags(mesh.corner_tags(), places.corner_tags);
    put_items(places.holes, 0, mesh.holes());
}
