//! Counts of edges.

ghost use Rattle.std.specs.Prelude.{◌≡◌, ◌<◌, length};
ghost use Rattle.subdiv_model.specs.Edges.{edges_of};
ghost use Rattle.subdiv_model.specs.Sharpness.{is_sharp};
ghost use Rattle.subdiv_model.specs.Level.{edge_sharpness_of};
ghost use Rattle.subdiv_model.specs.Text.{is_written_crease};
ghost use Rattle.subdiv_model.specs.LevelText.{boundary_edges, sharp_edges};
ghost use Rattle.level_topology.specs.Topology.{edge_at};

use level_topology::Level;

// Returns whether an edge has a sharpness above 0.
fn is_sharp(level: &Level, e: u32) -> bool
    requires { e < length (edges_of level.now.level.polygons) }
    ensures { result ≡ is_sharp (edge_sharpness_of level.now.level (edge_at level.now.level.polygons e)) }
{
    level.edge_sharpness(e).is_sharp()
}

// Returns whether an edge has two faces and is sharp. The edges of the boundary are all sharp and do not count.
fn is_crease(level: &Level, e: u32) -> bool
    requires { e < length (edges_of level.now.level.polygons) }
    ensures { result ≡ is_written_crease level.now.level (edge_at level.now.level.polygons e) }
{
    level.is_inner(e) && is_sharp(level, e)
}

// Returns the number of edges with one face.
pub(crate) fn boundary_edges(level: &Level) -> u32
    ensures { result ≡ boundary_edges level.now.level }
{
    let mut count = 0;
    for e in 0..level.edges() {
        count += u32::from(level.is_boundary(e));
    }
    count
}

// Returns the number of sharp edges with two faces.
pub(crate) fn sharp_edges(level: &Level) -> u32
    ensures { result ≡ sharp_edges level.now.level }
{
    let mut count = 0;
    for e in 0..level.edges() {
        count += u32::from(is_crease(level, e));
    }
    count
}
