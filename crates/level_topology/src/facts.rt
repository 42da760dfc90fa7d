//! The facts by which faces are selected for refinement.

ghost use Rattle.std.specs.Prelude.{◌≡◌, ◌<◌, true, not, length};
ghost use Rattle.std.specs.List.{list_any, count_by};
ghost use Rattle.subdiv_model.specs.Polygons.{polygon_at, sides_of};
ghost use Rattle.subdiv_model.specs.Edges.{edges_of};
ghost use Rattle.subdiv_model.specs.Level.{edges_at, vertex_sharpness_of};
ghost use Rattle.subdiv_model.specs.Feature.{facts_of, is_infinite, is_at_boundary, is_sharp_inside, is_smooth_at, is_regular};
ghost use Rattle.level_topology.specs.Topology.{edge_at};
ghost use Rattle.level_topology.specs.View.{facts_of_code};

use crate::level::Level;
use sharpness_rules::Sharpness;

/// The facts of a face by which it is selected.
#[derive(Clone, Copy, Debug, PartialEq, Eq)]
pub struct FaceFacts {
    /// The number of its level.
    pub level: u32,
    /// Its number among all faces of the whole level, counted from 0.
    pub number: u64,
    /// How many corners it has.
    pub size: u32,
    /// Whether it is a hole.
    pub hole: bool,
    /// How many of its corners are irregular.
    pub irregular: u32,
    /// How many of its edges are sharp and have two faces.
    pub sharp: u32,
}

impl Level {
    // Whether an edge is sharp and has two faces.
    fn is_sharp_inside(&self, e: u32) -> bool
        requires { e < length (edges_of self.now.level.polygons) }
        ensures { result ≡ is_sharp_inside self.now.level (edge_at self.now.level.polygons e) }
    {
        !self.is_boundary(e) && self.edge_sharpness(e).is_sharp()
    }

    // Whether a point is an end of a boundary edge.
    fn is_at_boundary(&self, v: u32) -> bool
        requires { v < self.now.level.point_count }
        ensures { result ≡ is_at_boundary self.now.level v }
    {
        self.facts();
        for e in self.vertex_edges(v) {
            if self.is_boundary(*e) {
                return true;
            }
        }
        false
    }

    // Whether a point is an end of a sharp edge with two faces.
    fn is_at_crease(&self, v: u32) -> bool
        requires { v < self.now.level.point_count }
        ensures { result ≡ list_any (is_sharp_inside self.now.level) (edges_at self.now.level v) }
    {
        self.facts();
        for e in self.vertex_edges(v) {
            if self.is_sharp_inside(*e) {
                return true;
            }
        }
        false
    }

    // Whether the point is not sharp, and no sharp edge with two faces ends there.
    fn is_smooth_at(&self, v: u32) -> bool
        requires { v < self.now.level.point_count }
        ensures { result ≡ is_smooth_at self.now.level v }
    {
        !self.vertex_sharpness(v).is_sharp() && !self.is_at_crease(v)
    }

    // Whether the sharpness of a point is infinite.
    fn is_infinite_at(&self, v: u32) -> bool
        requires { v < self.now.level.point_count }
        ensures { result ≡ is_infinite (vertex_sharpness_of self.now.level v) }
    {
        matches!(self.vertex_sharpness(v), Sharpness::Infinite)
    }

    // Whether a boundary point is regular: smooth with two faces, or infinitely sharp with one.
    fn is_regular_on_boundary(&self, v: u32) -> bool
        requires known { v < self.now.level.point_count }
        requires boundary { is_at_boundary self.now.level v ≡ true }
        ensures { result ≡ is_regular self.now.level v }
    {
        self.facts();
        let faces = self.vertex_faces(v).len();
        if faces == 2 {
            self.is_smooth_at(v)
        } else {
            faces == 1 && self.is_infinite_at(v)
        }
    }

    // Whether a point is regular.
    fn is_regular(&self, v: u32) -> bool
        requires { v < self.now.level.point_count }
        ensures { result ≡ is_regular self.now.level v }
    {
        if self.is_at_boundary(v) {
            self.is_regular_on_boundary(v)
        } else {
            self.valence(v) == 4 && self.is_smooth_at(v)
        }
    }

    // How many corners of a face are irregular.
    fn irregular_corners(&self, f: u32) -> u32
        requires { f < length self.now.level.polygons }
        ensures { result ≡ count_by (λ v. not (is_regular self.now.level v)) (polygon_at self.now.level.polygons f) }
    {
        self.facts();
        let mut count = 0;
        for v in self.face_vertices(f) {
            count += u32::from(!self.is_regular(*v));
        }
        count
    }

    // How many edges of a face are sharp and have two faces.
    fn sharp_edges(&self, f: u32) -> u32
        requires { f < length self.now.level.polygons }
        ensures { result ≡ count_by (is_sharp_inside self.now.level) (sides_of (polygon_at self.now.level.polygons f)) }
    {
        self.facts();
        let mut count = 0;
        for e in self.face_edges(f) {
            count += u32::from(self.is_sharp_inside(*e));
        }
        count
    }

    /// Returns the facts of face `f`, under the given numbers of its level and of the face. The call takes time linear in the edges at the
    /// corners, and no memory.
    pub fn face_facts(&self, f: u32, level: u32, number: u64) -> FaceFacts
        requires { f < length self.now.level.polygons }
        ensures { facts_of_code result ≡ record (facts_of self.now.level level f) { number = number } }
    {
        self.facts();
        FaceFacts {
            level,
            number,
            size: self.face_vertices(f).len() as u32,
            hole: self.is_hole(f),
            irregular: self.irregular_corners(f),
            sharp: self.sharp_edges(f),
        }
    }
}
