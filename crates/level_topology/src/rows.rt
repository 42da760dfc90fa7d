//! Builds a level from the lists of a caller.

ghost use Rattle.std.specs.Prelude.{◌≡◌, ◌+◌, ◌<◌, ◌≤◌, [], ◌∷◌, ◌++◌, length, map, IfOk, IfSome};
ghost use Rattle.std.specs.List.{sum_by};
ghost use Rattle.sharpness_rules.specs.View.{sharpness_of, method_of};
ghost use Rattle.level_topology.specs.Rows.{AreOfLevel, AreAllPut, no_rows, with_face, with_edge, with_vertex, topology_of};
ghost use Rattle.level_topology.specs.View.{listed, faces_of_pair, rows_of};

use crate::faces::EdgeFaces;
use crate::level::Level;
use crate::packed_lists::PackedLists;
use crate::tables::{LevelTables, edge_tables, face_tables, mark_tables};
use ratio128::{Memory, Steps};
use sharpness_rules::{Method, Sharpness};
use std::alloc::Global;
use std::marker::Model;
use std::sync::ledger::Ledger;

/// The lists of a level, put in the order of the numbers of its faces, edges and points. Only `new` takes memory.
#[derive(Drop)]
pub struct LevelRows {
    tables: LevelTables,
}

impl Model for LevelRows {
    ghost use Rattle.level_topology.specs.Rows.{Rows};
    ghost use Rattle.level_topology.specs.View.{rows_of, AreParallelTables};

    ghost Value = { Rows };

    ghost view = { λ l. rows_of l.tables };

    ghost invariant = { λ l. AreParallelTables l.tables };
}

impl LevelRows {
    /// Returns room for a level with these counts.
    ///
    /// `corners` counts the corners of all faces. `face_places` and `edge_places` count the faces and the edges in the lists of all points.
    /// `Memory`: memory ran out.
    pub fn new(
        alloc: Global,
        points: u32,
        edges: u32,
        faces: u32,
        corners: u32,
        face_places: u32,
        edge_places: u32,
        method: Method,
    ) -> Result<LevelRows, Memory>
        ensures { IfOk result (λ rows. rows ≡ no_rows (record {
          points = points;
          edges = edges;
          faces = faces;
          corners = corners;
          face_places = face_places;
          edge_places = edge_places;
        }) (method_of method)) }
    {
        let (vertex_sharpness, complete) = mark_tables(alloc, points)?;
        let (edge_vertices, edge_faces, edge_sharpness) = edge_tables(alloc, edges)?;
        let (faces, holes) = face_tables(alloc, faces, corners)?;
        let vertex_faces = PackedLists::with_limits(alloc, points, face_places)?;
        let vertex_edges = PackedLists::with_limits(alloc, points, edge_places)?;
        Ok(LevelRows {
            tables: LevelTables {
                faces,
                holes,
                edge_vertices,
                edge_faces,
                edge_sharpness,
                vertex_faces,
                vertex_edges,
                vertex_sharpness,
                complete,
                method,
            },
        })
    }

    /// Puts the next face: its corners, the edge from each corner to the next, and whether it is a hole. It counts one step.
    pub fn put_face<L: Ledger>(
        &mut self,
        corners: &[u32],
        edges: &[u32],
        hole: bool,
        steps: &mut Steps<L>,
    )
        requires equal { length edges.now ≡ length corners.now }
        requires faces { length self.old.face_vertices < self.old.counts.faces }
        requires corners { sum_by length self.old.face_vertices + length corners.now ≤ self.old.counts.corners }
        ensures put { self.new ≡ with_face corners.now edges.now hole self.old }
        ensures steps { steps.new ≡ steps.old + 1 }
    {
        steps.tick();
        self.tables.faces.push(corners, edges);
        self.tables.holes.push_reserved(hole);
    }

    /// Puts the next edge: its ends in the direction in which a face first names it, its faces, and its sharpness.
    pub fn put_edge(&mut self, first: u32, second: u32, faces: EdgeFaces, s: Sharpness)
        requires edges { length self.old.edge_vertices < self.old.counts.edges }
        requires order { IfSome faces.second (λ second. faces.first < second) }
        ensures { self.new ≡ with_edge (first, second) (listed faces) (sharpness_of s) self.old }
    {
        self.tables.edge_vertices.push_reserved((first, second));
        self.tables.edge_faces.push_reserved(pair_of(faces));
        self.tables.edge_sharpness.push(s);
    }

    /// Puts the next point: its faces and its corner of each, its edges and its end of each, its sharpness, and whether it is complete. The
    /// lists at a complete point are in fan order.
    pub fn put_vertex(
        &mut self,
        faces: &[u32],
        faces_at: &[u16],
        edges: &[u32],
        edges_at: &[u16],
        s: Sharpness,
        complete: bool,
    )
        requires equal_faces { length faces_at.now ≡ length faces.now }
        requires equal_edges { length edges_at.now ≡ length edges.now }
        requires points { length self.old.complete < self.old.counts.points }
        requires face_places { sum_by length self.old.vertex_faces + length faces.now ≤ self.old.counts.face_places }
        requires edge_places { sum_by length self.old.vertex_edges + length edges.now ≤ self.old.counts.edge_places }
        ensures { self.new ≡ with_vertex faces.now faces_at.now edges.now edges_at.now (sharpness_of s) complete self.old }
    {
        self.tables.vertex_faces.push(faces, faces_at);
        self.tables.vertex_edges.push(edges, edges_at);
        self.tables.vertex_sharpness.push(s);
        self.tables.complete.push_reserved(complete);
    }

    /// Returns the level with exactly these lists. All lists must be put, and they must be those of one level.
    pub fn finish(self) -> Level
        requires all { AreAllPut self }
        requires of_level { AreOfLevel self }
        ensures { result ≡ topology_of self }
    {
        let tables = fitted(self.tables);
        Level { tables }
    }
}

// The faces of an edge as a pair of numbers, which are equal if there is one face.
fn pair_of(faces: EdgeFaces) -> (u32, u32)
    requires { IfSome faces.second (λ second. faces.first < second) }
    ensures { faces_of_pair result ≡ listed faces }
{
    (faces.first, faces.second.unwrap_or(faces.first))
}

// The tables without the capacity that no sharpness used.
fn fitted(tables: LevelTables) -> LevelTables
    requires edges { length tables.edge_sharpness.sharpness ≡ tables.edge_sharpness.limit }
    requires points { length tables.vertex_sharpness.sharpness ≡ tables.vertex_sharpness.limit }
    ensures { rows_of result ≡ rows_of tables }
{
    LevelTables {
        edge_sharpness: tables.edge_sharpness.fitted(),
        vertex_sharpness: tables.vertex_sharpness.fitted(),
        ..tables
    }
}
