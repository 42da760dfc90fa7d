//! A level and its accessors.

ghost use Rattle.std.specs.Prelude.{◌≡◌, ◌<◌, false, [], length, map, get_or};
ghost use Rattle.std.specs.List.{sum_by};
ghost use Rattle.subdiv_model.specs.Polygons.{polygon_at};
ghost use Rattle.subdiv_model.specs.Edges.{edges_of, faces_of_edge};
ghost use Rattle.subdiv_model.specs.Sharpness.{Smooth};
ghost use Rattle.sharpness_rules.specs.View.{sharpness_of, method_of};
ghost use Rattle.level_topology.specs.Packed.{Ascend, gaps};
ghost use Rattle.level_topology.specs.Topology.{IsTopology, edge_at, face_edges_of, corner_of, end_of};
ghost use Rattle.level_topology.specs.Rows.{AreOfLevel, topology_of};
ghost use Rattle.level_topology.specs.View.{listed, faces_of_pair, rows_of};

use crate::faces::EdgeFaces;
use crate::tables::LevelTables;
use sharpness_rules::{Method, Sharpness};
use std::marker::Model;

/// A level in six incidence tables: corners and edges of each face, ends and faces of each edge, faces and edges at each point.
///
/// Points, edges, faces and corners are counted from 0. Edges are numbered as they first appear over faces and corners. The size of a level
/// never changes. Each accessor needs a number that exists. It takes no memory and does not search.
#[derive(Drop)]
pub struct Level {
    pub(crate) tables: LevelTables,
}

impl Model for Level {
    ghost use Rattle.level_topology.specs.Topology.{Topology};
    ghost use Rattle.level_topology.specs.Rows.{topology_of, AreOfLevel};
    ghost use Rattle.level_topology.specs.View.{rows_of};

    ghost Value = { Topology };

    ghost view = { λ l. topology_of (rows_of l.tables) };

    ghost invariant = { λ l. AreOfLevel (rows_of l.tables) };
}

// The faces of an edge from a pair of numbers, which are equal if there is one face.
fn faces_from(pair: (u32, u32)) -> EdgeFaces
    ensures { listed result ≡ faces_of_pair pair }
{
    let (first, other) = pair;
    let second = if other == first { None } else { Some(other) };
    EdgeFaces { first, second }
}

impl Level {
    /// Returns the level with these tables, without a copy. They must be the tables of one level.
    pub fn of_tables(tables: LevelTables) -> Level
        requires { AreOfLevel (rows_of tables) }
        ensures { result ≡ topology_of (rows_of tables) }
    {
        Level { tables }
    }

    /// States the facts of every level to a proof; at run time it does nothing.
    pub fn facts(&self)
        ensures { IsTopology self.now }
    {
        let _ = &self.tables;
    }

    /// How many points there are.
    pub fn points(&self) -> u32
        ensures { result ≡ self.now.level.point_count }
    {
        self.tables.complete.len() as u32
    }

    /// How many edges there are.
    pub fn edges(&self) -> u32
        ensures { result ≡ length (edges_of self.now.level.polygons) }
    {
        self.tables.edge_vertices.len() as u32
    }

    /// How many faces there are.
    pub fn faces(&self) -> u32
        ensures { result ≡ length self.now.level.polygons }
    {
        self.tables.faces.len() as u32
    }

    /// The points at the corners of a face, in order.
    pub fn face_vertices(&self, f: u32) -> &[u32]
        requires { f < length self.now.level.polygons }
        ensures { result.now ≡ polygon_at self.now.level.polygons f }
    {
        self.tables.faces.list(f as usize)
    }

    /// The edges of a face. Edge `c` joins corner `c` to the next.
    pub fn face_edges(&self, f: u32) -> &[u32]
        requires { f < length self.now.level.polygons }
        ensures { result.now ≡ face_edges_of self.now.level.polygons (polygon_at self.now.level.polygons f) }
    {
        self.tables.faces.beside(f as usize)
    }

    /// The number of corners before each face, then the number of all corners.
    pub fn corner_starts(&self) -> &[u32]
        ensures gaps { gaps result.now ≡ map length self.now.level.polygons }
        ensures ascend { Ascend result.now (sum_by length self.now.level.polygons) }
    {
        self.tables.faces.starts()
    }

    /// The ends of an edge, in the direction in which a face first names it.
    pub fn edge_vertices(&self, e: u32) -> (u32, u32)
        requires { e < length (edges_of self.now.level.polygons) }
        ensures { result ≡ edge_at self.now.level.polygons e }
    {
        self.tables.edge_vertices[e as usize]
    }

    /// The faces of an edge.
    pub fn edge_faces(&self, e: u32) -> EdgeFaces
        requires { e < length (edges_of self.now.level.polygons) }
        ensures { listed result ≡ faces_of_edge self.now.level.polygons (edge_at self.now.level.polygons e) }
    {
        faces_from(self.tables.edge_faces[e as usize])
    }

    /// The faces at a point, in fan order if the point is complete.
    pub fn vertex_faces(&self, v: u32) -> &[u32]
        requires { v < self.now.level.point_count }
        ensures { result.now ≡ get_or self.now.faces_at v [] }
    {
        self.tables.vertex_faces.list(v as usize)
    }

    /// For each face at a point, the place of the point among the corners of that face.
    pub fn vertex_faces_at(&self, v: u32) -> &[u16]
        requires { v < self.now.level.point_count }
        ensures { result.now ≡ map (corner_of self.now.level.polygons v) (get_or self.now.faces_at v []) }
    {
        self.tables.vertex_faces.beside(v as usize)
    }

    /// The edges at a point, in fan order if the point is complete.
    pub fn vertex_edges(&self, v: u32) -> &[u32]
        requires { v < self.now.level.point_count }
        ensures { result.now ≡ get_or self.now.edges_at v [] }
    {
        self.tables.vertex_edges.list(v as usize)
    }

    /// For each edge at a point, 0 if the point is its first end, and 1 if it is its second.
    pub fn vertex_edges_at(&self, v: u32) -> &[u16]
        requires { v < self.now.level.point_count }
        ensures { result.now ≡ map (end_of self.now.level.polygons v) (get_or self.now.edges_at v []) }
    {
        self.tables.vertex_edges.beside(v as usize)
    }

    /// The sharpness of an edge.
    pub fn edge_sharpness(&self, e: u32) -> Sharpness
        requires { e < length (edges_of self.now.level.polygons) }
        ensures { sharpness_of result ≡ get_or self.now.level.edge_sharpness e Smooth }
    {
        self.tables.edge_sharpness.at(e as usize)
    }

    /// The sharpness of a point.
    pub fn vertex_sharpness(&self, v: u32) -> Sharpness
        requires { v < self.now.level.point_count }
        ensures { sharpness_of result ≡ get_or self.now.level.vertex_sharpness v Smooth }
    {
        self.tables.vertex_sharpness.at(v as usize)
    }

    /// Whether a face is a hole.
    pub fn is_hole(&self, f: u32) -> bool
        requires { f < length self.now.level.polygons }
        ensures { result ≡ get_or self.now.level.holes f false }
    {
        self.tables.holes[f as usize]
    }

    /// Whether the lists at a point are in fan order. At any other point they ascend.
    pub fn is_complete(&self, v: u32) -> bool
        requires { v < self.now.level.point_count }
        ensures { result ≡ get_or self.now.complete v false }
    {
        self.tables.complete[v as usize]
    }

    /// The method that gives the halves of an edge their sharpness at the next level.
    pub fn method(&self) -> Method
        ensures { method_of result ≡ self.now.level.method }
    {
        self.tables.method
    }
}
