//! The faces and edges at a point in fan order.

ghost use Rattle.std.specs.Prelude.{◌≡◌, ℕ, ◌<◌, true, false, nat_eq, List, [], length, map, get_or, slice_set, OnOk, MatchOption, IsTrue};
ghost use Rattle.std.specs.List.{All, list_all};
ghost use Rattle.subdiv_model.specs.Polygons.{has_corner, has_distinct_sides, is_among, polygon_at};
ghost use Rattle.subdiv_model.specs.Edges.{all_sides, edges_of, faces_of_edge};
ghost use Rattle.subdiv_model.specs.Manifold.{IsSuccessor, is_simple};
ghost use Rattle.level_topology.specs.Topology.{corner_of, edge_after, edge_at, edge_before};
ghost use Rattle.level_topology.specs.PointRows.{IsFanFrom};
ghost use Rattle.level_topology.specs.View.{faces_of_pair};
ghost use Rattle.point_fans.specs.Across.{other_of};

use crate::numbered_faces::NumberedFaces;
use level_topology::corner_before;
use ratio128::Memory;

// The other face of an edge, if there is one.
fn other_face(pair: (u32, u32), f: u32) -> Option<u32>
    ensures { MatchOption result (nat_eq pair.0 pair.1 ≡ true) (λ g. (nat_eq pair.0 pair.1 ≡ false) × (g ≡ other_of pair f)) }
{
    if pair.0 == pair.1 {
        None
    } else if pair.0 == f {
        Some(pair.1)
    } else {
        Some(pair.0)
    }
}

// Keeps the corner of a face.
fn note_corner(corners: &mut Vec<u16>, f: u32, corner: u16)
    requires { f < length corners.old.items }
    ensures { corners.new.items ≡ slice_set corners.old.items f corner }
{
    corners[f as usize] = corner;
}

// Keeps the corner of each of these faces at a point.
pub(crate) fn note_corners(faces: &[u32], at: &[u16], corners: &mut Vec<u16>)
    requires equal { length at.now ≡ length faces.now }
    requires inside { All (λ f. f < length corners.old.items) faces.now }
    ensures corners { (value : ℕ → ℕ) → at.now ≡ map value faces.now → (f : ℕ) → is_among faces.now f ≡ true → get_or corners.new.items f 0 ≡ value f }
    ensures size { length corners.new.items ≡ length corners.old.items }
{
    for i in 0..faces.len() {
        note_corner(corners, faces[i], at[i]);
    }
}

impl NumberedFaces {
    // States the facts of the faces to a proof; at run time it does nothing.
    pub(crate) fn facts(&self)
        ensures simple { IsTrue (list_all is_simple self.now.level.polygons) }
        ensures sides_once { IsTrue (has_distinct_sides (all_sides self.now.level.polygons)) }
    {
        let _ = &self.parts.faces;
    }

    // The edge that leaves a point in a face.
    pub(crate) fn edge_after(&self, v: u32, f: u32, c: u16) -> u32
        requires there { has_corner v (polygon_at self.now.level.polygons f) ≡ true }
        requires corner { c ≡ corner_of self.now.level.polygons v f }
        ensures { result ≡ edge_after self.now.level.polygons v f }
    {
        self.parts.faces.beside(f as usize)[c as usize]
    }

    // The edge that enters a point in a face.
    pub(crate) fn edge_before(&self, v: u32, f: u32, c: u16) -> u32
        requires there { has_corner v (polygon_at self.now.level.polygons f) ≡ true }
        requires corner { c ≡ corner_of self.now.level.polygons v f }
        ensures { result ≡ edge_before self.now.level.polygons v f }
    {
        let edges = self.parts.faces.beside(f as usize);
        edges[corner_before(edges.len(), c as usize)]
    }

    // The first and the last face of an edge.
    fn face_pair(&self, e: u32) -> (u32, u32)
        requires { e < length (edges_of self.now.level.polygons) }
        ensures { faces_of_pair result ≡ faces_of_edge self.now.level.polygons (edge_at self.now.level.polygons e) }
    {
        self.parts.edge_faces[e as usize]
    }

    // The face after a face about a point, if there is one.
    fn face_after(&self, v: u32, f: u32, c: u16) -> Option<u32>
        requires there { has_corner v (polygon_at self.now.level.polygons f) ≡ true }
        requires corner { c ≡ corner_of self.now.level.polygons v f }
        ensures { MatchOption result ((g : ℕ) → IsSuccessor self.now.level.polygons v f g → ⊥) (λ g. IsSuccessor self.now.level.polygons v f g) }
    {
        self.facts();
        let e = self.edge_after(v, f, c);
        other_face(self.face_pair(e), f)
    }

    // The face before a face about a point, if there is one.
    fn face_before(&self, v: u32, f: u32, c: u16) -> Option<u32>
        requires there { has_corner v (polygon_at self.now.level.polygons f) ≡ true }
        requires corner { c ≡ corner_of self.now.level.polygons v f }
        ensures { MatchOption result ((g : ℕ) → IsSuccessor self.now.level.polygons v g f → ⊥) (λ g. IsSuccessor self.now.level.polygons v g f) }
    {
        self.facts();
        let e = self.edge_before(v, f, c);
        other_face(self.face_pair(e), f)
    }

    // The faces at a point in order, beginning with `start`.
    pub(crate) fn walk(
        &self,
        v: u32,
        start: u32,
        corners: &[u16],
        count: usize,
        faces: &mut Vec<u32>,
    ) -> Result<(), Memory>
        requires there { has_corner v (polygon_at self.now.level.polygons start) ≡ true }
        requires size { length corners.now ≡ length self.now.level.polygons }
        requires corners { (f : ℕ) → has_corner v (polygon_at self.now.level.polygons f) ≡ true → get_or corners.now f 0 ≡ corner_of self.now.level.polygons v f }
        requires none { faces.old.items ≡ [] }
        ensures { (fan : List ℕ) → IsFanFrom self.now.level.polygons v start fan → length fan ≡ count → OnOk result (faces.new.items ≡ fan) }
    {
        self.facts();
        let mut f = start;
        for i in 0..count {
            let _place = i;
            faces.push(f)?;
            f = self.face_after(v, f, corners[f as usize]).unwrap_or(f);
        }
        Ok(())
    }

    // The first of these faces without a predecessor about the point, and whether there is one; otherwise the first face.
    pub(crate) fn first_of_fan(&self, v: u32, faces: &[u32], at: &[u16]) -> (u32, bool)
        requires some { 0 < length faces.now }
        requires there { All (λ f. has_corner v (polygon_at self.now.level.polygons f) ≡ true) faces.now }
        requires corners { at.now ≡ map (corner_of self.now.level.polygons v) faces.now }
        ensures there { has_corner v (polygon_at self.now.level.polygons result.0) ≡ true }
        ensures no_predecessor { result.1 ≡ true → (g : ℕ) → IsSuccessor self.now.level.polygons v g result.0 → ⊥ }
        ensures led { result.1 ≡ false → (f : ℕ) → is_among faces.now f ≡ true → (g : ℕ) × IsSuccessor self.now.level.polygons v g f }
    {
        for i in 0..faces.len() {
            if self.face_before(v, faces[i], at[i]).is_none() {
                return (faces[i], true);
            }
        }
        (faces[0], false)
    }
}
