//! Whether a face has a patch.

ghost use Rattle.std.specs.Prelude.{◌≡◌, ◌<◌, ◌&&◌, not, nat_eq, length};
ghost use Rattle.std.specs.List.{All, list_all, list_any};
ghost use Rattle.subdiv_model.specs.Edges.{edges_of};
ghost use Rattle.subdiv_model.specs.Sharpness.{is_sharp};
ghost use Rattle.subdiv_model.specs.Level.{edge_sharpness_of, edges_at, faces_at};
ghost use Rattle.subdiv_model.specs.Patch.{has_patch, is_quad, is_regular_in_quads};
ghost use Rattle.level_topology.specs.Topology.{edge_at};
ghost use Rattle.patch_bspline.specs.Around.{is_marked};

use level_topology::Level;

// Returns whether an edge is sharp.
fn is_sharp_edge(level: &Level, e: u32) -> bool
    requires { e < length (edges_of level.now.level.polygons) }
    ensures { result ≡ is_sharp (edge_sharpness_of level.now.level (edge_at level.now.level.polygons e)) }
{
    level.edge_sharpness(e).is_sharp()
}

// Returns whether an edge is sharp or has one face.
fn is_marked(level: &Level, e: u32) -> bool
    requires { e < length (edges_of level.now.level.polygons) }
    ensures { result ≡ is_marked level.now.level (edge_at level.now.level.polygons e) }
{
    level.is_boundary(e) || is_sharp_edge(level, e)
}

// Returns whether a point has an edge that is sharp or has one face.
fn has_marked_edge(level: &Level, v: u32) -> bool
    requires { v < level.now.level.point_count }
    ensures { result ≡ list_any (is_marked level.now.level) (edges_at level.now.level v) }
{
    level.facts();
    for e in level.vertex_edges(v) {
        if is_marked(level, *e) {
            return true;
        }
    }
    false
}

// Returns whether a face has four corners.
fn is_quad(level: &Level, face: u32) -> bool
    requires { face < length level.now.level.polygons }
    ensures { result ≡ is_quad level.now.level face }
{
    level.face_vertices(face).len() == 4
}

// Returns whether a point has exactly four faces, all quads.
fn has_four_quads(level: &Level, v: u32) -> bool
    requires { v < level.now.level.point_count }
    ensures { result ≡ (nat_eq (length (faces_at level.now.level v)) 4 && list_all (is_quad level.now.level) (faces_at level.now.level v)) }
{
    level.facts();
    let faces = level.vertex_faces(v);
    for face in faces {
        if !is_quad(level, *face) {
            return false;
        }
    }
    faces.len() == 4
}

// Returns whether a point is regular: four quads, no sharp edge, no boundary.
fn is_regular(level: &Level, v: u32) -> bool
    requires { v < level.now.level.point_count }
    ensures { result ≡ is_regular_in_quads level.now.level v }
{
    if level.vertex_sharpness(v).is_sharp() {
        return false;
    }
    if has_marked_edge(level, v) {
        return false;
    }
    has_four_quads(level, v)
}

/// Returns whether a face has a patch. The test takes no memory.
pub(crate) fn has_patch(level: &Level, face: u32) -> bool
    requires { face < length level.now.level.polygons }
    ensures { result ≡ has_patch level.now.level face }
{
    level.facts();
    for v in level.face_vertices(face) {
        if !is_regular(level, *v) {
            return false;
        }
    }
    is_quad(level, face)
}
