//! An edge and its faces, a point and its edges.

ghost use Rattle.std.specs.Prelude.{◌≡◌, ◌<◌, [], nat_eq, length, get_or};
ghost use Rattle.subdiv_model.specs.Edges.{edges_of, faces_of_edge, is_boundary};
ghost use Rattle.subdiv_model.specs.Level.{edges_at};
ghost use Rattle.subdiv_model.specs.Mask.{other_end};
ghost use Rattle.level_topology.specs.Topology.{edge_at};

use crate::level::Level;

impl Level {
    /// Whether an edge has only one face.
    pub fn is_boundary(&self, e: u32) -> bool
        requires { e < length (edges_of self.now.level.polygons) }
        ensures { result ≡ is_boundary self.now.level.polygons (edge_at self.now.level.polygons e) }
    {
        self.edge_faces(e).second.is_none()
    }

    /// Whether an edge has two faces.
    pub fn is_inner(&self, e: u32) -> bool
        requires { e < length (edges_of self.now.level.polygons) }
        ensures { result ≡ nat_eq (length (faces_of_edge self.now.level.polygons (edge_at self.now.level.polygons e))) 2 }
    {
        self.edge_faces(e).second.is_some()
    }

    /// How many edges end at a point.
    pub fn valence(&self, v: u32) -> u32
        requires { v < self.now.level.point_count }
        ensures listed { result ≡ length (get_or self.now.edges_at v []) }
        ensures valence { result ≡ length (edges_at self.now.level v) }
    {
        self.facts();
        let _most = self.edges();
        self.vertex_edges(v).len() as u32
    }

    /// The end of an edge other than the point `v`.
    pub fn other_end(&self, v: u32, e: u32) -> u32
        requires { e < length (edges_of self.now.level.polygons) }
        ensures { result ≡ other_end v (edge_at self.now.level.polygons e) }
    {
        let (first, second) = self.edge_vertices(e);
        if first == v { second } else { first }
    }
}
