//! Builds a level from faces, in linear time.

ghost use Rattle.std.specs.Prelude.{◌≡◌, ◌+◌, ◌^◌, ◌<◌, ◌≤◌, true, false, [], length, map, IfOk, OnOk, OnErr, IsTrue, replicate, vec_len};
ghost use Rattle.std.specs.Vec.{vec_capacity};
ghost use Rattle.std.specs.List.{All, list_any, sum_by};
ghost use Rattle.subdiv_model.specs.Polygons.{same_edge};
ghost use Rattle.subdiv_model.specs.Edges.{edges_of};
ghost use Rattle.subdiv_model.specs.Manifold.{is_simple};
ghost use Rattle.subdiv_model.specs.Sharpness.{Smooth};
ghost use Rattle.sharpness_rules.specs.View.{sharpness_of, method_of};
ghost use Rattle.level_topology.specs.Packed.{paired};
ghost use Rattle.point_fans.specs.Parts.{AreLevelParts, built_in};
ghost use Rattle.point_fans.specs.Built.{AreFans};
ghost use Rattle.level_builder.specs.Builder.{only_points, with_polygon, with_sharp_edge, with_sharp_vertex, with_complete, has_new_sides};

use crate::edges::NumberedEdges;
use level_topology::{Level, PackedLists};
use point_fans::{FaceParts, NumberedFaces};
use ratio128::{Memory, Steps};
use sharpness_rules::{Method, Sharpness};
use std::alloc::Global;
use std::marker::Model;
use std::sync::ledger::Ledger;

/// A level under construction: points, faces, sharp edges, sharp points and marks of complete points.
#[derive(Drop)]
pub struct LevelBuilder {
    alloc: Global,
    faces: PackedLists<u32>,
    holes: Vec<bool>,
    edges: NumberedEdges,
    // The numbers of the edges of the next face.
    numbers: Vec<u32>,
    vertex_sharpness: Vec<Sharpness>,
    complete: Vec<bool>,
    method: Method,
}

impl Model for LevelBuilder {
    ghost use Rattle.std.specs.Prelude.{length, map};
    ghost use Rattle.sharpness_rules.specs.View.{sharpness_of, method_of};
    ghost use Rattle.point_fans.specs.Built.{Built, IsBuilt, built_of};

    ghost Value = { Built };

    ghost view = { λ b. built_of (length b.complete.items) b.faces.lists b.holes.items b.edges.sharpness (map sharpness_of b.vertex_sharpness.items) (method_of b.method) b.complete.items };

    ghost invariant = { λ b. IsBuilt (built_of (length b.complete.items) b.faces.lists b.holes.items b.edges.sharpness (map sharpness_of b.vertex_sharpness.items) (method_of b.method) b.complete.items) b.edges b.faces.beside };
}

// Makes room for one more face with this many corners.
fn make_room(
    faces: &mut PackedLists<u32>,
    holes: &mut Vec<bool>,
    edges: &mut NumberedEdges,
    numbers: &mut Vec<u32>,
    corners: u32,
) -> Result<(), Memory>
    requires few { length faces.old.lists + 1 < 2 ^ 32 }
    requires short { sum_by length faces.old.lists + corners < 2 ^ 32 }
    requires few_edges { length edges.old.ends + corners < 2 ^ 32 }
    ensures lists { faces.new.lists ≡ faces.old.lists }
    ensures beside { faces.new.beside ≡ faces.old.beside }
    ensures holes { holes.new.items ≡ holes.old.items }
    ensures ends { edges.new.ends ≡ edges.old.ends }
    ensures faces { edges.new.faces ≡ edges.old.faces }
    ensures sharpness { edges.new.sharpness ≡ edges.old.sharpness }
    ensures numbers { numbers.new.items ≡ numbers.old.items }
    ensures list_room { OnOk result (length faces.new.lists < faces.new.list_limit) }
    ensures item_room { OnOk result (sum_by length faces.new.lists + corners ≤ faces.new.item_limit) }
    ensures hole_room { OnOk result (vec_len holes.new < vec_capacity holes.new) }
    ensures edge_room { OnOk result (length edges.new.ends + corners ≤ edges.new.limit) }
    ensures number_room { OnOk result (vec_len numbers.new + corners ≤ vec_capacity numbers.new) }
    ensures edges_unchanged { OnErr result (edges.new ≡ edges.old) }
{
    faces.make_room(1, corners)?;
    holes.reserve(1)?;
    numbers.reserve(corners as usize)?;
    edges.make_room(corners)?;
    Ok(())
}

// Room for faces, for their corners in all, and for their marks.
fn face_room(
    alloc: Global,
    faces: u32,
    corners: u32,
) -> Result<(PackedLists<u32>, Vec<bool>), Memory>
    ensures faces { IfOk result (λ made. made.0 ≡ paired [] [] faces corners) }
    ensures holes { IfOk result (λ made. made.1.items ≡ []) }
{
    let holes = Vec::with_capacity(alloc, faces as usize)?;
    Ok((PackedLists::with_limits(alloc, faces, corners)?, holes))
}

// Marks for points: all smooth, and none complete.
fn point_marks(alloc: Global, points: u32) -> Result<(Vec<Sharpness>, Vec<bool>), Memory>
    ensures smooth { IfOk result (λ marks. map sharpness_of marks.0.items ≡ replicate points Smooth) }
    ensures none { IfOk result (λ marks. marks.1.items ≡ replicate points false) }
{
    let vertex_sharpness = vec![in alloc; Sharpness::Smooth; points as usize]?;
    Ok((vertex_sharpness, vec![in alloc; false; points as usize]?))
}

impl LevelBuilder {
    /// Returns a builder with `points` points, at most 2^30, and no faces. `Memory`: memory ran out.
    ///
    /// Use `with_key` for meshes from outside: numbers of points can be chosen so that numbering the edges takes long.
    pub fn new(alloc: Global, points: u32, method: Method) -> Result<LevelBuilder, Memory>
        requires { points ≤ 2 ^ 30 }
        ensures { IfOk result (λ b. b ≡ only_points points (method_of method)) }
    {
        LevelBuilder::with_key(alloc, points, 0, 0, 0, method, 0)
    }

    /// Returns a builder with `points` points, at most 2^30. It has room for these numbers of faces, of corners of all faces, and of edges.
    ///
    /// A hash under `key` numbers the edges. Compute the key from the whole mesh with `MeshKey`. Nobody who chooses the mesh can then
    /// choose the collisions, and one mesh always takes the same time. `Memory`: memory ran out.
    pub fn with_key(
        alloc: Global,
        points: u32,
        faces: u32,
        corners: u32,
        edges: u32,
        method: Method,
        key: u128,
    ) -> Result<LevelBuilder, Memory>
        requires { points ≤ 2 ^ 30 }
        ensures { IfOk result (λ b. b ≡ only_points points (method_of method)) }
    {
        let (vertex_sharpness, complete) = point_marks(alloc, points)?;
        let (faces, holes) = face_room(alloc, faces, corners)?;
        let edges = NumberedEdges::with_room(alloc, edges, key)?;
        Ok(LevelBuilder {
            alloc,
            faces,
            holes,
            edges,
            numbers: Vec::new(alloc),
            vertex_sharpness,
            complete,
            method,
        })
    }

    /// Adds a face. Its corners are three or more different points, at most 2^16, and no earlier face has one of its sides. There are at
    /// most 2^22 faces with it, and fewer than 2^28 corners of all faces. Its new edges are smooth. The call counts one step, whatever its
    /// result.
    ///
    /// `Memory`: memory ran out, and the builder is unchanged.
    pub fn add_face<L: Ledger>(
        &mut self,
        corners: &[u32],
        hole: bool,
        steps: &mut Steps<L>,
    ) -> Result<(), Memory>
        requires simple { IsTrue (is_simple corners.now) }
        requires inside { All (λ v. v < self.old.level.point_count) corners.now }
        requires size { length corners.now ≤ 2 ^ 16 }
        requires few { length self.old.level.polygons < 2 ^ 22 }
        requires short { sum_by length self.old.level.polygons + length corners.now < 2 ^ 28 }
        requires new_sides { IsTrue (has_new_sides self.old.level.polygons corners.now) }
        ensures added { OnOk result (self.new ≡ with_polygon corners.now hole self.old) }
        ensures unchanged { OnErr result (self.new ≡ self.old) }
        ensures steps { steps.new ≡ steps.old + 1 }
    {
        steps.tick();
        self.numbers.clear();
        make_room(
            &mut self.faces,
            &mut self.holes,
            &mut self.edges,
            &mut self.numbers,
            corners.len() as u32,
        )?;
        let face = self.faces.len() as u32;
        self.edges.number_all(corners, face, &mut self.numbers);
        self.faces.push(corners, &self.numbers);
        self.holes.push_reserved(hole);
        Ok(())
    }

    /// Sets the sharpness of the edge that joins two points. The last call for an edge counts.
    pub fn add_sharp_edge(&mut self, a: u32, b: u32, s: Sharpness)
        requires { IsTrue (list_any (same_edge (a, b)) (edges_of self.old.level.polygons)) }
        ensures { self.new ≡ with_sharp_edge (a, b) (sharpness_of s) self.old }
    {
        self.edges.set_sharpness(a, b, s);
    }

    /// Sets the sharpness of a point. The last call for a point counts.
    pub fn add_sharp_vertex(&mut self, v: u32, s: Sharpness)
        requires { v < self.old.level.point_count }
        ensures { self.new ≡ with_sharp_vertex v (sharpness_of s) self.old }
    {
        self.vertex_sharpness[v as usize] = s;
    }

    /// Marks a point as complete: the caller promises that its faces form one fan in the finished level, or that it has none.
    pub fn mark_complete(&mut self, v: u32)
        requires { v < self.old.level.point_count }
        ensures { self.new ≡ with_complete v self.old }
    {
        self.complete[v as usize] = true;
    }

    // The faces with their numbered edges, as plain tables.
    fn into_faces(self) -> NumberedFaces
        ensures { result ≡ self }
    {
        let (edge_ends, edge_faces, edge_sharpness) = self.edges.into_parts();
        let parts = FaceParts {
            faces: self.faces,
            holes: self.holes,
            edge_ends,
            edge_faces,
            edge_sharpness,
            vertex_sharpness: self.vertex_sharpness,
            complete: self.complete,
            method: self.method,
        };
        NumberedFaces::of(self.alloc, parts)
    }

    /// Returns the level: its faces in order, its edges numbered as they first appear over faces and corners, and the lists at each point.
    ///
    /// The lists are in fan order at points marked complete, whose faces must form one fan, and ascend elsewhere. `Memory`: memory ran out,
    /// and the builder is dropped.
    pub fn finish(self) -> Result<Level, Memory>
        requires fans { AreFans self }
        ensures level { IfOk result (λ level. level.level ≡ self.level) }
        ensures complete { IfOk result (λ level. level.complete ≡ self.complete) }
    {
        self.into_faces().finish()
    }
}
