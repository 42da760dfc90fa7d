//! The lists at one point.

ghost use Rattle.std.specs.Prelude.{◌≡◌, []};

use std::alloc::Global;

/// The faces and edges at a point, with its corner of each face and its end of each edge.
#[derive(Drop)]
pub struct PointLists {
    pub faces: Vec<u32>,
    pub faces_at: Vec<u16>,
    pub edges: Vec<u32>,
    pub edges_at: Vec<u16>,
}

impl PointLists {
    /// Returns empty lists. The call takes no memory.
    pub fn new(alloc: Global) -> PointLists
        ensures faces { result.faces.items ≡ [] }
        ensures faces_at { result.faces_at.items ≡ [] }
        ensures edges { result.edges.items ≡ [] }
        ensures edges_at { result.edges_at.items ≡ [] }
    {
        PointLists {
            faces: Vec::new(alloc),
            faces_at: Vec::new(alloc),
            edges: Vec::new(alloc),
            edges_at: Vec::new(alloc),
        }
    }

    /// Empties all lists and keeps their memory.
    pub fn clear(&mut self)
        ensures faces { self.new.faces.items ≡ [] }
        ensures faces_at { self.new.faces_at.items ≡ [] }
        ensures edges { self.new.edges.items ≡ [] }
        ensures edges_at { self.new.edges_at.items ≡ [] }
    {
        self.faces.clear();
        self.faces_at.clear();
        self.edges.clear();
        self.edges_at.clear();
    }
}
