//! Counts of points.

ghost use Rattle.std.specs.Prelude.{◌≡◌, ◌<◌, nat_lt, length};
ghost use Rattle.subdiv_model.specs.Level.{faces_at};
ghost use Rattle.subdiv_model.specs.Base.{is_at_boundary};
ghost use Rattle.subdiv_model.specs.LevelText.{used_points, is_extraordinary, extraordinary_vertices};

use level_topology::Level;

// Returns whether a point has a face.
fn is_used(level: &Level, v: u32) -> bool
    requires { v < level.now.level.point_count }
    ensures { result ≡ nat_lt 0 (length (faces_at level.now.level v)) }
{
    level.facts();
    !level.vertex_faces(v).is_empty()
}

// Returns whether a point is an end of an edge with one face.
fn is_at_boundary(level: &Level, v: u32) -> bool
    requires { v < level.now.level.point_count }
    ensures { result ≡ is_at_boundary level.now.level.polygons v }
{
    level.facts();
    for e in level.vertex_edges(v) {
        if level.is_boundary(*e) {
            return true;
        }
    }
    false
}

// Returns whether a point has a face, lies inside the mesh and has a number of edges other than four.
fn is_extraordinary(level: &Level, v: u32) -> bool
    requires { v < level.now.level.point_count }
    ensures { result ≡ is_extraordinary level.now.level v }
{
    !is_at_boundary(level, v) && is_used(level, v) && level.valence(v) != 4
}

// Returns the number of points with a face.
pub(crate) fn used_points(level: &Level) -> u32
    ensures { result ≡ used_points level.now.level }
{
    let mut count = 0;
    for v in 0..level.points() {
        count += u32::from(is_used(level, v));
    }
    count
}

// Returns the number of points inside the mesh that have a face and a number of edges other than four.
pub(crate) fn extraordinary_points(level: &Level) -> u32
    ensures { result ≡ extraordinary_vertices level.now.level }
{
    let mut count = 0;
    for v in 0..level.points() {
        count += u32::from(is_extraordinary(level, v));
    }
    count
}
