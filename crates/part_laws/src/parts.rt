//! Laws of the faces and edges of a part at a point and along an edge.

ghost use Rattle.std.specs.Prelude.{◌≡◌, ℕ, List, map, IsTrue, ◌↔◌};
ghost use Rattle.subdiv_model.specs.Polygons.{Polygon};
ghost use Rattle.subdiv_model.specs.Edges.{edges_of_point, faces_of_point, faces_of_edge, has_end, is_boundary};
ghost use Rattle.subdiv_model.specs.Manifold.{IsPath, HasOneFan};
ghost use Rattle.part_laws.specs.Parts.{IsWholeAt, IsWholeAlong, renamed, face_in};
ghost use Rattle.part_laws.specs.Children.{as_listed};
ghost use Rattle.part_laws.specs.Laws.{Part, PartFaces, WholePoint, WholeEdge, other_ends_at, name_of, edge_in};

/// If a part has all faces at a point, these are the faces at its name in the whole, in the same order.
pub fn faces_at_whole_points_are_the_same()
    ensures { (part : Part) (at : WholePoint part)
        → map (face_in part.faces) (faces_of_point part.polygons at.point) ≡ faces_of_point part.whole (name_of at) }
{}

/// If a part has all faces at a point, the edges and their other ends are those of the whole. They have the same order of first
/// appearance and the same directions.
pub fn edges_at_whole_points_are_the_same()
    ensures edges { (part : Part) (at : WholePoint part)
        → map (renamed part.name) (edges_of_point part.polygons at.point) ≡ edges_of_point part.whole (name_of at) }
    ensures ends { (part : Part) (at : WholePoint part)
        → map part.name (other_ends_at part.polygons at.point)
        ≡ other_ends_at part.whole (name_of at) }
{}

/// If a part has all faces along an edge, these are the faces of the whole along it. The edge is a boundary edge in both or in
/// neither, and both list it in the same direction.
pub fn faces_along_whole_edges_are_the_same()
    ensures faces { (part : Part) (along : WholeEdge part)
        → map (face_in part.faces) (faces_of_edge part.polygons along.edge) ≡ faces_of_edge part.whole (edge_in along) }
    ensures boundary { (part : Part) (along : WholeEdge part)
        → is_boundary part.polygons along.edge ≡ is_boundary part.whole (edge_in along) }
    ensures direction { (part : Part) (along : WholeEdge part) → as_listed part.whole (edge_in along)
        ≡ renamed part.name (as_listed part.polygons along.edge) }
{}

/// If a part has all faces at a point, they form one fan exactly if they form one in the whole. Faces are a path around the point
/// in the part exactly if they are one in the whole.
pub fn fans_at_whole_points_are_the_same()
    ensures fan { (part : Part) (at : WholePoint part) → HasOneFan part.polygons at.point ↔ HasOneFan part.whole (name_of at) }
    ensures path { (part : Part) (at : WholePoint part) (some : PartFaces part)
        → IsPath part.polygons at.point some.faces ↔ IsPath part.whole (name_of at) (map (face_in part.faces) some.faces) }
{}

/// Polygons that have all faces at an end of an edge have all faces along the edge.
pub fn edges_at_whole_points_are_whole()
    ensures { (faces : List ℕ) (whole : List Polygon) (v : ℕ) (edge : ℕ × ℕ) → IsTrue (has_end v edge)
        → IsWholeAt faces whole v → IsWholeAlong faces whole edge }
{}
