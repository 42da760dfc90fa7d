//! Puts the faces and edges at a complete point in fan order.

ghost use Rattle.std.specs.Prelude.{◌≡◌, ℕ, ◌<◌, true, false, List, [], ◌∷◌, ◌++◌, length, map, get_or, IfOk, OnOk, IsTrue, if◌then◌else◌};
ghost use Rattle.std.specs.List.{All};
ghost use Rattle.subdiv_model.specs.Polygons.{has_corner, polygon_at};
ghost use Rattle.subdiv_model.specs.Edges.{edges_of, faces_of_point};
ghost use Rattle.subdiv_model.specs.Manifold.{has_one_fan};
ghost use Rattle.level_topology.specs.Topology.{corner_of, edge_after, edge_before, edge_numbers_at, end_of};
ghost use Rattle.level_topology.specs.PointRows.{IsRow, IsTurned, last_face};

use crate::fan::note_corners;
use crate::numbered_faces::NumberedFaces;
use level_topology::PointLists;
use ratio128::Memory;
use std::mem::swap;

// The corners kept for these faces.
fn put_corners(faces: &[u32], corners: &[u16], at: &mut Vec<u16>) -> Result<(), Memory>
    requires inside { All (λ f. f < length corners.now) faces.now }
    requires none { at.old.items ≡ [] }
    ensures { OnOk result (at.new.items ≡ map (λ f. get_or corners.now f 0) faces.now) }
{
    for i in 0..faces.len() {
        at.push(corners[faces[i] as usize])?;
    }
    Ok(())
}

impl NumberedFaces {
    // The end of an edge that the point is: 0 for the first, and 1 for the second.
    fn end_at(&self, v: u32, e: u32) -> u16
        requires { e < length (edges_of self.now.level.polygons) }
        ensures { result ≡ end_of self.now.level.polygons v e }
    {
        let (first, _) = self.parts.edge_ends[e as usize];
        if v == first { 0 } else { 1 }
    }

    // The ends of these edges that the point is.
    fn put_ends(&self, v: u32, edges: &[u32], ends: &mut Vec<u16>) -> Result<(), Memory>
        requires inside { All (λ e. e < length (edges_of self.now.level.polygons)) edges.now }
        requires none { ends.old.items ≡ [] }
        ensures { OnOk result (ends.new.items ≡ map (end_of self.now.level.polygons v) edges.now) }
    {
        for i in 0..edges.len() {
            ends.push(self.end_at(v, edges[i]))?;
        }
        Ok(())
    }

    // The edges that enter a point in these faces.
    fn put_edges_before(
        &self,
        v: u32,
        faces: &[u32],
        corners: &[u16],
        edges: &mut Vec<u32>,
    ) -> Result<(), Memory>
        requires there { All (λ f. has_corner v (polygon_at self.now.level.polygons f) ≡ true) faces.now }
        requires size { length corners.now ≡ length self.now.level.polygons }
        requires corners { (f : ℕ) → has_corner v (polygon_at self.now.level.polygons f) ≡ true → get_or corners.now f 0 ≡ corner_of self.now.level.polygons v f }
        requires none { edges.old.items ≡ [] }
        ensures { OnOk result (edges.new.items ≡ map (edge_before self.now.level.polygons v) faces.now) }
    {
        for i in 0..faces.len() {
            let f = faces[i];
            edges.push(self.edge_before(v, f, corners[f as usize]))?;
        }
        Ok(())
    }

    // The edge that leaves a point in the last of its faces, if the faces form a path.
    fn put_last_edge(
        &self,
        v: u32,
        faces: &[u32],
        corners: &[u16],
        is_path: bool,
        edges: &mut Vec<u32>,
    ) -> Result<(), Memory>
        requires some { 0 < length faces.now }
        requires there { All (λ f. has_corner v (polygon_at self.now.level.polygons f) ≡ true) faces.now }
        requires size { length corners.now ≡ length self.now.level.polygons }
        requires corners { (f : ℕ) → has_corner v (polygon_at self.now.level.polygons f) ≡ true → get_or corners.now f 0 ≡ corner_of self.now.level.polygons v f }
        ensures { OnOk result (edges.new.items ≡ edges.old.items ++ (if is_path then edge_after self.now.level.polygons v (last_face faces.now) ∷ [] else [])) }
    {
        if is_path {
            let f = faces[faces.len() - 1];
            edges.push(self.edge_after(v, f, corners[f as usize]))?;
        }
        Ok(())
    }

    // The faces at a point in fan order, and whether they form a path.
    fn put_fan(
        &self,
        v: u32,
        listed: &PointLists,
        corners: &mut Vec<u16>,
        faces: &mut Vec<u32>,
    ) -> Result<bool, Memory>
        requires some { 0 < length listed.now.faces.items }
        requires listed { listed.now.faces.items ≡ faces_of_point self.now.level.polygons v }
        requires at { listed.now.faces_at.items ≡ map (corner_of self.now.level.polygons v) listed.now.faces.items }
        requires fan { IsTrue (has_one_fan self.now.level.polygons v) }
        requires size { length corners.old.items ≡ length self.now.level.polygons }
        requires none { faces.old.items ≡ [] }
        ensures turned { IfOk result (λ is_path. IsTurned self.now.level.polygons v is_path faces.new.items) }
        ensures corners { (f : ℕ) → has_corner v (polygon_at self.now.level.polygons f) ≡ true → get_or corners.new.items f 0 ≡ corner_of self.now.level.polygons v f }
        ensures size { length corners.new.items ≡ length corners.old.items }
    {
        self.facts();
        note_corners(&listed.faces, &listed.faces_at, corners);
        let (first, is_path) = self.first_of_fan(v, &listed.faces, &listed.faces_at);
        self.walk(v, first, corners, listed.faces.len(), faces)?;
        Ok(is_path)
    }

    // The lists at a complete point with faces, in fan order.
    pub(crate) fn turn(
        &self,
        v: u32,
        listed: &PointLists,
        corners: &mut Vec<u16>,
        turned: &mut PointLists,
    ) -> Result<(), Memory>
        requires some { 0 < length listed.now.faces.items }
        requires listed { listed.now.faces.items ≡ faces_of_point self.now.level.polygons v }
        requires at { listed.now.faces_at.items ≡ map (corner_of self.now.level.polygons v) listed.now.faces.items }
        requires fan { IsTrue (has_one_fan self.now.level.polygons v) }
        requires size { length corners.old.items ≡ length self.now.level.polygons }
        ensures row { OnOk result (IsRow self.now.level.polygons v true turned.new.faces.items turned.new.faces_at.items turned.new.edges.items turned.new.edges_at.items) }
        ensures size { length corners.new.items ≡ length corners.old.items }
    {
        self.facts();
        turned.clear();
        let is_path = self.put_fan(v, listed, corners, &mut turned.faces)?;
        put_corners(&turned.faces, corners, &mut turned.faces_at)?;
        self.put_edges_before(v, &turned.faces, corners, &mut turned.edges)?;
        self.put_last_edge(v, &turned.faces, corners, is_path, &mut turned.edges)?;
        self.put_ends(v, &turned.edges, &mut turned.edges_at)?;
        Ok(())
    }

    // Puts the ascending lists at a point in fan order if the point is complete.
    pub(crate) fn order(
        &self,
        v: u32,
        row: &mut PointLists,
        spare: &mut PointLists,
        corners: &mut Vec<u16>,
    ) -> Result<(), Memory>
        requires faces { row.old.faces.items ≡ faces_of_point self.now.level.polygons v }
        requires at { row.old.faces_at.items ≡ map (corner_of self.now.level.polygons v) row.old.faces.items }
        requires edges { row.old.edges.items ≡ edge_numbers_at self.now.level.polygons v }
        requires ends { row.old.edges_at.items ≡ map (end_of self.now.level.polygons v) row.old.edges.items }
        requires point { v < self.now.level.point_count }
        requires fan { get_or self.now.complete v false ≡ true → IsTrue (has_one_fan self.now.level.polygons v) }
        requires size { length corners.old.items ≡ length self.now.level.polygons }
        ensures row { OnOk result (IsRow self.now.level.polygons v (get_or self.now.complete v false) row.new.faces.items row.new.faces_at.items row.new.edges.items row.new.edges_at.items) }
        ensures size { length corners.new.items ≡ length corners.old.items }
    {
        self.facts();
        if !self.parts.complete[v as usize] {
            return Ok(());
        }
        if row.faces.is_empty() {
            return Ok(());
        }
        self.turn(v, row, corners, spare)?;
        swap(row, spare);
        Ok(())
    }
}
