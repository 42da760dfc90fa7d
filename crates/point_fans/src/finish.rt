//! The lists at all points of numbered faces.

ghost use Rattle.std.specs.Prelude.{◌≡◌, ◌*◌, ◌^◌, ◌<◌, true, false, [], length, map, get_or, IfOk, OnOk, IsTrue};
ghost use Rattle.std.specs.List.{sum_by};
ghost use Rattle.subdiv_model.specs.Edges.{edges_of, faces_of_point};
ghost use Rattle.subdiv_model.specs.Manifold.{has_one_fan};
ghost use Rattle.level_topology.specs.Packed.{paired};
ghost use Rattle.level_topology.specs.Topology.{corner_of, edge_numbers_at, end_of};
ghost use Rattle.level_topology.specs.ListPlaces.{pair_list};
ghost use Rattle.point_fans.specs.PointPlaces.{AreChainedIn, ArePointPlaces};
ghost use Rattle.point_fans.specs.Built.{AreFans, AreListed, IsListedAt};

use crate::numbered_faces::NumberedFaces;
use crate::places::Chained;
use crate::rows::{places_of, places_of_ends};
use level_topology::{Level, LevelTables, PackedLists, PointLists, SharpnessList};
use ratio128::Memory;

// The places of the points among the corners of faces and among the ends of edges.
#[derive(Drop)]
pub(crate) struct PointPlaces {
    pub(crate) faces: Chained,
    pub(crate) edges: Chained,
}

// The lists at one point, room for them in another order, and the corner of each face there.
#[derive(Drop)]
pub(crate) struct Turning {
    pub(crate) row: PointLists,
    pub(crate) spare: PointLists,
    pub(crate) corners: Vec<u16>,
}

// The tables of a level that are made from its faces and edges.
#[derive(Drop)]
pub(crate) struct Made {
    pub(crate) edge_sharpness: SharpnessList,
    pub(crate) vertex_faces: PackedLists<u16>,
    pub(crate) vertex_edges: PackedLists<u16>,
    pub(crate) vertex_sharpness: SharpnessList,
}

impl NumberedFaces {
    // The places of the points among the corners of faces.
    fn corner_places(&self) -> Result<Chained, Memory>
        ensures { IfOk result (λ c. AreChainedIn self.now.level.polygons self.now.level.point_count c) }
    {
        let points = self.parts.complete.len() as u32;
        let corners = places_of(self.alloc, &self.parts.faces)?;
        Chained::new(self.alloc, corners, points)
    }

    // The places of the points among the ends of edges.
    fn end_places(&self) -> Result<Chained, Memory>
        ensures { IfOk result (λ c. AreChainedIn (map pair_list (edges_of self.now.level.polygons)) self.now.level.point_count c) }
    {
        let points = self.parts.complete.len() as u32;
        let ends = places_of_ends(self.alloc, &self.parts.edge_ends)?;
        Chained::new(self.alloc, ends, points)
    }

    // The places of all points.
    fn point_places(&self) -> Result<PointPlaces, Memory>
        ensures { IfOk result (λ p. ArePointPlaces self.now p) }
    {
        let faces = self.corner_places()?;
        let edges = self.end_places()?;
        Ok(PointPlaces { faces, edges })
    }

    // The lists at a point, ascending.
    fn list_row(&self, places: &PointPlaces, v: u32, row: &mut PointLists) -> Result<(), Memory>
        requires point { v < self.now.level.point_count }
        requires places { ArePointPlaces self.now places.now }
        ensures faces { OnOk result (row.new.faces.items ≡ faces_of_point self.now.level.polygons v) }
        ensures at { OnOk result (row.new.faces_at.items ≡ map (corner_of self.now.level.polygons v) row.new.faces.items) }
        ensures edges { OnOk result (row.new.edges.items ≡ edge_numbers_at self.now.level.polygons v) }
        ensures ends { OnOk result (row.new.edges_at.items ≡ map (end_of self.now.level.polygons v) row.new.edges.items) }
    {
        row.clear();
        places.faces.put(v, &mut row.faces, &mut row.faces_at)?;
        places.edges.put(v, &mut row.edges, &mut row.edges_at)?;
        Ok(())
    }

    // The lists at a point: in fan order if it is complete, and ascending otherwise.
    fn ordered_row(&self, places: &PointPlaces, v: u32, turning: &mut Turning) -> Result<(), Memory>
        requires point { v < self.now.level.point_count }
        requires fan { get_or self.now.complete v false ≡ true → IsTrue (has_one_fan self.now.level.polygons v) }
        requires size { length turning.old.corners.items ≡ length self.now.level.polygons }
        requires places { ArePointPlaces self.now places.now }
        ensures row { OnOk result (IsListedAt self.now v turning.new.row) }
        ensures size { length turning.new.corners.items ≡ length turning.old.corners.items }
    {
        self.list_row(places, v, &mut turning.row)?;
        self.order(
            v,
            &mut turning.row,
            &mut turning.spare,
            &mut turning.corners,
        )
    }

    // Puts the lists at all points.
    fn put_rows(
        &self,
        places: &PointPlaces,
        turning: &mut Turning,
        faces: &mut PackedLists<u16>,
        edges: &mut PackedLists<u16>,
    ) -> Result<(), Memory>
        requires fans { AreFans self.now }
        requires size { length turning.old.corners.items ≡ length self.now.level.polygons }
        requires places { ArePointPlaces self.now places.now }
        requires no_faces { faces.old ≡ paired [] [] self.now.level.point_count (sum_by length self.now.level.polygons) }
        requires no_edges { edges.old ≡ paired [] [] self.now.level.point_count (2 * length (edges_of self.now.level.polygons)) }
        ensures { OnOk result (AreListed self.now faces.new edges.new) }
    {
        let points = self.parts.complete.len() as u32;
        for v in 0..points {
            self.ordered_row(places, v, turning)?;
            faces.push(&turning.row.faces, &turning.row.faces_at);
            edges.push(&turning.row.edges, &turning.row.edges_at);
        }
        Ok(())
    }

    // The lists at all points, in tables that have room for them.
    fn filled_rows(
        &self,
        places: &PointPlaces,
        turning: &mut Turning,
        mut faces: PackedLists<u16>,
        mut edges: PackedLists<u16>,
    ) -> Result<(PackedLists<u16>, PackedLists<u16>), Memory>
        requires fans { AreFans self.now }
        requires size { length turning.old.corners.items ≡ length self.now.level.polygons }
        requires places { ArePointPlaces self.now places.now }
        requires no_faces { faces ≡ paired [] [] self.now.level.point_count (sum_by length self.now.level.polygons) }
        requires no_edges { edges ≡ paired [] [] self.now.level.point_count (2 * length (edges_of self.now.level.polygons)) }
        ensures { IfOk result (λ r. AreListed self.now r.0 r.1) }
    {
        self.put_rows(places, turning, &mut faces, &mut edges)?;
        Ok((faces, edges))
    }

    // The lists at all points, in new tables.
    fn rows_with(
        &self,
        places: &PointPlaces,
        turning: &mut Turning,
    ) -> Result<(PackedLists<u16>, PackedLists<u16>), Memory>
        requires fans { AreFans self.now }
        requires size { length turning.old.corners.items ≡ length self.now.level.polygons }
        requires places { ArePointPlaces self.now places.now }
        ensures { IfOk result (λ r. AreListed self.now r.0 r.1) }
    {
        let points = self.parts.complete.len() as u32;
        let faces = PackedLists::with_limits(self.alloc, points, self.parts.faces.total() as u32)?;
        let edges = PackedLists::with_limits(
            self.alloc,
            points,
            2 * self.parts.edge_ends.len() as u32,
        )?;
        self.filled_rows(places, turning, faces, edges)
    }

    // The lists at all points, given the places of the points.
    fn rows_at(&self, places: &PointPlaces) -> Result<(PackedLists<u16>, PackedLists<u16>), Memory>
        requires fans { AreFans self.now }
        requires places { ArePointPlaces self.now places.now }
        ensures { IfOk result (λ r. AreListed self.now r.0 r.1) }
    {
        let mut turning = Turning {
            corners: vec![in self.alloc; 0; self.parts.faces.len()]?,
            row: PointLists::new(self.alloc),
            spare: PointLists::new(self.alloc),
        };
        self.rows_with(places, &mut turning)
    }

    // The faces at all points with the corners there, and the edges at all points with the ends there.
    fn rows(&self) -> Result<(PackedLists<u16>, PackedLists<u16>), Memory>
        requires { AreFans self.now }
        ensures { IfOk result (λ r. AreListed self.now r.0 r.1) }
    {
        let places = self.point_places()?;
        self.rows_at(&places)
    }

    // The sharpness of all edges, and that of all points.
    fn sharps(&self) -> Result<(SharpnessList, SharpnessList), Memory>
        ensures edges { IfOk result (λ s. s.0.sharpness ≡ self.now.level.edge_sharpness) }
        ensures points { IfOk result (λ s. s.1.sharpness ≡ self.now.level.vertex_sharpness) }
    {
        let points = SharpnessList::from_slice(self.alloc, &self.parts.vertex_sharpness)?;
        let edges = SharpnessList::from_slice(self.alloc, &self.parts.edge_sharpness)?;
        Ok((edges, points))
    }

    // These lists at all points, with the sharpness of all edges and points.
    fn made_with(&self, faces: PackedLists<u16>, edges: PackedLists<u16>) -> Result<Made, Memory>
        requires { AreListed self.now faces edges }
        ensures rows { IfOk result (λ m. AreListed self.now m.vertex_faces m.vertex_edges) }
        ensures edges { IfOk result (λ m. m.edge_sharpness.sharpness ≡ self.now.level.edge_sharpness) }
        ensures points { IfOk result (λ m. m.vertex_sharpness.sharpness ≡ self.now.level.vertex_sharpness) }
    {
        let (edge_sharpness, vertex_sharpness) = self.sharps()?;
        Ok(Made {
            edge_sharpness,
            vertex_faces: faces,
            vertex_edges: edges,
            vertex_sharpness,
        })
    }

    // The tables of a level other than those of its faces and edges.
    fn made(&self) -> Result<Made, Memory>
        requires { AreFans self.now }
        ensures rows { IfOk result (λ m. AreListed self.now m.vertex_faces m.vertex_edges) }
        ensures edges { IfOk result (λ m. m.edge_sharpness.sharpness ≡ self.now.level.edge_sharpness) }
        ensures points { IfOk result (λ m. m.vertex_sharpness.sharpness ≡ self.now.level.vertex_sharpness) }
    {
        let (faces, edges) = self.rows()?;
        self.made_with(faces, edges)
    }

    // The level of the faces and edges with these further tables.
    fn joined(self, made: Made) -> Level
        requires rows { AreListed self made.vertex_faces made.vertex_edges }
        requires edges { made.edge_sharpness.sharpness ≡ self.level.edge_sharpness }
        requires points { made.vertex_sharpness.sharpness ≡ self.level.vertex_sharpness }
        ensures level { result.level ≡ self.level }
        ensures complete { result.complete ≡ self.complete }
    {
        let parts = self.parts;
        Level::of_tables(LevelTables {
            faces: parts.faces,
            holes: parts.holes,
            edge_vertices: parts.edge_ends,
            edge_faces: parts.edge_faces,
            edge_sharpness: made.edge_sharpness,
            vertex_faces: made.vertex_faces,
            vertex_edges: made.vertex_edges,
            vertex_sharpness: made.vertex_sharpness,
            complete: parts.complete,
            method: parts.method,
        })
    }

    /// Returns the level of these faces and edges, with the lists of faces and edges at each point. The call takes linear time.
    ///
    /// The lists are in fan order at points marked complete, whose faces must form one fan, and ascend elsewhere. The level takes over the
    /// tables of faces and edges without a copy. `Memory`: memory ran out, and the faces are dropped.
    pub fn finish(self) -> Result<Level, Memory>
        requires fans { AreFans self }
        ensures level { IfOk result (λ level. level.level ≡ self.level) }
        ensures complete { IfOk result (λ level. level.complete ≡ self.complete) }
    {
        let made = self.made()?;
        Ok(self.joined(made))
    }
}
