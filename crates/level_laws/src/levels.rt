//! Laws of level 0 and of the marks and sharpness that each next level inherits.

ghost use Rattle.std.specs.Prelude.{◌≡◌, ℕ, ◌<◌, ◌≤◌, List, length, IsTrue};
ghost use Rattle.std.specs.List.{All};
ghost use Rattle.subdiv_model.specs.Polygons.{Polygon, polygon_at};
ghost use Rattle.subdiv_model.specs.Edges.{edges_of, is_closed};
ghost use Rattle.subdiv_model.specs.Sharpness.{Smooth, uniform_child};
ghost use Rattle.subdiv_model.specs.ObjMesh.{ObjMesh, has_faces_over_points};
ghost use Rattle.subdiv_model.specs.Level.{Level, edge_sharpness_of, vertex_sharpness_of, is_hole, is_well_formed, plain_level};
ghost use Rattle.subdiv_model.specs.Child.{child_polygons, half_sharpness, child_level, refined_level, faces_after};
ghost use Rattle.subdiv_model.specs.Base.{base_level};
ghost use Rattle.level_laws.specs.Children.{Corner, EdgeEnd, IsFaceOverPoints, IsSmoothNext, child_place, child_face_of, edge_point_of, face_point_of};
ghost use Rattle.level_laws.specs.Tags.{HasProperTags, IsUntagged};

/// Level 0 of a mesh is well formed where the corners of faces are points and the tags are well formed.
pub fn base_levels_are_well_formed()
    ensures { (mesh : ObjMesh) → IsTrue (has_faces_over_points mesh) → HasProperTags mesh
        → IsTrue (is_well_formed (base_level mesh)) }
{}

/// Level 0 of a closed mesh of the normal method without creases, corner tags and holes is plain: it has no mark and no
/// sharpness.
pub fn base_of_an_untagged_closed_mesh_is_plain()
    ensures { (mesh : ObjMesh) → IsUntagged mesh → IsTrue (is_closed mesh.faces)
        → base_level mesh ≡ plain_level (length mesh.points) mesh.faces }
{}

/// Each level after a well-formed level is well formed. Its corners are points, each face has a mark, and each edge and each
/// point has a well-formed sharpness.
pub fn levels_stay_well_formed()
    ensures { (level : Level) (k : ℕ) → IsTrue (is_well_formed level) → IsTrue (is_well_formed (refined_level level k)) }
{}

/// After one step a level has one face for each corner of the faces it comes from. Each further step makes four times as many.
pub fn levels_have_so_many_faces()
    ensures { (level : Level) (k : ℕ) → length (refined_level level k).polygons ≡ faces_after level.polygons k }
{}

/// The child of a face at a corner comes after the children of all earlier faces. It is a hole exactly where the face is a hole.
pub fn child_faces_are_holes_as_their_parents()
    ensures place { (points : ℕ) (faces : List Polygon) (corner : Corner faces)
        → polygon_at (child_polygons points faces) (child_place corner)
        ≡ child_face_of points corner }
    ensures hole { (level : Level) (corner : Corner level.polygons)
        → is_hole (child_level level) (child_place corner) ≡ is_hole level corner.face }
{}

/// Each half of an edge has the sharpness that the method of the level gives it at its end.
pub fn halves_have_their_sharpness()
    ensures { (level : Level) (end : EdgeEnd level)
        → edge_sharpness_of (child_level level) (end.v, edge_point_of level end.edge) ≡ half_sharpness level end.edge end.v }
{}

/// An edge inside a face, from its face point to an edge point, is smooth.
pub fn edges_inside_faces_are_smooth()
    ensures from_face_point { (level : Level) (face : ℕ) → IsFaceOverPoints level face
        → All (λ edge. IsSmoothNext level (face_point_of level face, edge_point_of level edge))
        (edges_of level.polygons) }
    ensures to_face_point { (level : Level) (face : ℕ) → IsFaceOverPoints level face
        → All (λ edge. IsSmoothNext level (edge_point_of level edge, face_point_of level face))
        (edges_of level.polygons) }
{}

/// A point keeps its number, and its sharpness becomes the uniform child of the sharpness it had. New points are smooth.
pub fn new_points_are_smooth()
    ensures new_points { (level : Level) (p : ℕ) → level.point_count ≤ p → vertex_sharpness_of (child_level level) p ≡ Smooth }
    ensures old_points { (level : Level) (v : ℕ) → v < level.point_count
        → vertex_sharpness_of (child_level level) v ≡ uniform_child (vertex_sharpness_of level v) }
{}
