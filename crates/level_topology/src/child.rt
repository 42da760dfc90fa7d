//! A level together with the origins of its points and faces.

ghost use Rattle.std.specs.Prelude.{◌≡◌, ◌<◌, length, map, get_or, IfOk};
ghost use Rattle.level_topology.specs.Child.{FromVertex, FromFace, FromEdge, IsChild, HasParent, child_of, point_from, face_from};
ghost use Rattle.level_topology.specs.ChildTables.{origin_of, place_of};

use crate::child_origin::{FacePlace, Origin};
use crate::child_tables::{ChildTables, origin_from, present_place, tables_of};
use crate::level::Level;
use ratio128::Memory;
use std::alloc::Global;
use std::marker::Model;

/// A level and the tables that lead into it from its parent.
///
/// The tables give the point of each point, face and edge of the parent, and the face of each corner. A child may contain the children of
/// only a part of its parent. No accessor takes memory or searches. Points, edges, faces and corners are counted from 0.
#[derive(Drop)]
pub struct Child {
    level: Level,
    tables: ChildTables,
}

impl Model for Child {
    ghost use Rattle.level_topology.specs.Child.{ChildTopology};
    ghost use Rattle.level_topology.specs.ChildTables.{child_in, AreOfChild};

    ghost Value = { ChildTopology };

    ghost view = { λ c. child_in c.level c.tables };

    ghost invariant = { λ c. AreOfChild c.level c.tables };
}

impl Child {
    /// Joins a level to its parent as its child, in time linear in the lists.
    ///
    /// `origins` gives the origin of each point of the level, in the order of their numbers. `places` gives the parent corner of each of
    /// its faces. `Memory`: memory ran out, and the level is dropped.
    pub fn join(
        alloc: Global,
        parent: &Level,
        level: Level,
        origins: &[Origin],
        places: &[FacePlace],
    ) -> Result<Child, Memory>
        requires { IsChild parent.now level (map origin_of origins.now) (map place_of places.now) }
        ensures { IfOk result (λ child. child ≡ child_of parent.now level (map origin_of origins.now) (map place_of places.now)) }
    {
        let tables = tables_of(alloc, parent, &level, origins, places)?;
        Ok(Child { level, tables })
    }

    /// States the facts of every child to a proof; at run time it does nothing.
    pub fn facts(&self)
        ensures { HasParent self.now }
    {
        let _ = &self.tables;
    }

    /// The level.
    pub fn level(&self) -> &Level
        ensures { result.now ≡ self.now.topology }
    {
        &self.level
    }

    /// Returns the level and drops its tables.
    pub fn into_level(self) -> Level
        ensures { result ≡ self.topology }
    {
        self.level
    }

    /// The point that comes from a point of the parent, if there is one.
    pub fn vertex_point(&self, v: u32) -> Option<u32>
        requires { v < self.now.parent_points }
        ensures { result ≡ point_from self.now (FromVertex v) }
    {
        present_place(self.tables.points[v as usize])
    }

    /// The point that comes from a face of the parent, if there is one.
    pub fn face_point(&self, f: u32) -> Option<u32>
        requires { f < length self.now.parent_sizes }
        ensures { result ≡ point_from self.now (FromFace f) }
    {
        present_place(self.tables.points[self.tables.vertices as usize + f as usize])
    }

    /// The point that comes from an edge of the parent, if there is one.
    pub fn edge_point(&self, e: u32) -> Option<u32>
        requires { e < self.now.parent_edges }
        ensures { result ≡ point_from self.now (FromEdge e) }
    {
        let first = self.tables.vertices as usize + self.tables.faces as usize;
        present_place(self.tables.points[first + e as usize])
    }

    /// The face that comes from a corner of a face of the parent, if there is one. `corner` is the place of the corner in the face.
    pub fn child_face(&self, f: u32, corner: u32) -> Option<u32>
        requires { corner < get_or self.now.parent_sizes f 0 }
        ensures { result ≡ face_from self.now (f, corner) }
    {
        let first = self.tables.starts[f as usize] as usize;
        present_place(self.tables.child_faces[first + corner as usize])
    }

    /// The part of the parent that a point comes from.
    pub fn origin(&self, p: u32) -> Origin
        requires { p < self.now.topology.level.point_count }
        ensures { origin_of result ≡ get_or self.now.origins p (FromVertex 0) }
    {
        origin_from(
            self.tables.numbers[p as usize],
            self.tables.vertices,
            self.tables.faces,
        )
    }
}
