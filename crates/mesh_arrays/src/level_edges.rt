//! The ends of edges.

ghost use Rattle.std.specs.Prelude.{◌≡◌, ◌*◌, ◌≤◌, length, take, drop};
ghost use Rattle.subdiv_model.specs.Edges.{edges_of};
ghost use Rattle.mesh_arrays.specs.Flat.{ends_of};

use level_topology::Level;

/// Writes both ends of each edge to the start of the array, edge by edge. The ends come in the direction in which a face
/// first names the edge.
///
/// Points are counted from 0. The array has at least two places for each edge, and further places keep their contents.
pub fn put_edges(level: &Level, out: &mut [u32])
    requires fits { 2 * length (edges_of level.now.level.polygons) ≤ length out.old }
    ensures written { take (2 * length (edges_of level.now.level.polygons)) out.new ≡ ends_of (edges_of level.now.level.polygons) }
    ensures rest { drop (2 * length (edges_of level.now.level.polygons)) out.new ≡ drop (2 * length (edges_of level.now.level.polygons)) out.old }
    ensures len { length out.new ≡ length out.old }
{
    for e in 0..level.edges() {
        let (first, second) = level.edge_vertices(e);
        let at = 2 * e as usize;
        out[at] = first;
        out[at + 1] = second;
    }
}
