//! Laws of the cut mesh of a texture channel.

ghost use Rattle.std.specs.Prelude.{◌≡◌, ℕ, ◌<◌, ◌≤◌, Bool, false, length, map, get_or, IsTrue, ◌↔◌};
ghost use Rattle.std.specs.List.{list_any};
ghost use Rattle.subdiv_model.specs.Polygons.{polygon_at, has_corner, has_distinct_sides, is_over};
ghost use Rattle.subdiv_model.specs.Edges.{all_sides, edges_of, faces_of_edge};
ghost use Rattle.subdiv_model.specs.Manifold.{IsManifold};
ghost use Rattle.subdiv_model.specs.Sharpness.{Infinite};
ghost use Rattle.subdiv_model.specs.Level.{edge_sharpness_of, vertex_sharpness_of, is_well_formed};
ghost use Rattle.subdiv_model.specs.ObjMesh.{ObjMesh};
ghost use Rattle.subdiv_model.specs.Base.{base_level};
ghost use Rattle.subdiv_model.specs.Cut.{SeamMode, SmoothSeams, joined_faces, channel_points, cut_level};
ghost use Rattle.mesh_laws.specs.Edges.{IsInnerEdge, IsBoundaryEdge};
ghost use Rattle.texture_laws.specs.CutMesh.{AreCutPoints, AreSimple, corner_at, cut_faces, cut_point_count, edge_sharpness_in_mesh, is_kept_sharp, point_of, vertex_of, vertices_of, sharpness_in_mesh};
ghost use Rattle.texture_laws.specs.Joined.{HaveJoiningEdge, KeepsJoined, are_joined, has_vertex};
ghost use Rattle.texture_laws.specs.Seamless.{IsSeamlessManifold};

/// The cut mesh has the faces of the mesh over channel points. Each face has as many corners, and each corner is a channel point
/// of its vertex. Each channel point is listed once and is a corner.
pub fn cut_faces_are_the_faces_of_the_mesh()
    ensures faces { (mesh : ObjMesh) → length (cut_faces mesh) ≡ length mesh.faces }
    ensures corners { (mesh : ObjMesh) (face : ℕ) → length (polygon_at (cut_faces mesh) face) ≡ length (polygon_at mesh.faces face) }
    ensures over { (mesh : ObjMesh) → IsTrue (is_over (cut_point_count mesh) (cut_faces mesh)) }
    ensures vertices { (mesh : ObjMesh) (face corner : ℕ) → corner < length (polygon_at mesh.faces face) → vertex_of mesh (corner_at (cut_faces mesh) face corner) ≡ corner_at mesh.faces face corner }
    ensures whole { (mesh : ObjMesh) → map (map (vertex_of mesh)) (cut_faces mesh) ≡ mesh.faces }
    ensures once { (mesh : ObjMesh) (p q : ℕ) → p < cut_point_count mesh → q < cut_point_count mesh → get_or (channel_points mesh) p (0, 0) ≡ get_or (channel_points mesh) q (0, 0) → p ≡ q }
    ensures used { (mesh : ObjMesh) (p : ℕ) → p < cut_point_count mesh → IsTrue (list_any (has_corner p) (cut_faces mesh)) }
{}

/// At a vertex only edges that are no seams join faces. Joined faces have the same list of joined faces, which begins with the
/// least. Two faces share a channel point at a vertex exactly if they are joined there.
pub fn joined_faces_are_joined_through_edges()
    ensures within { (mesh : ObjMesh) (v face f : ℕ) → IsTrue (has_vertex mesh face v)
        → IsTrue (are_joined mesh v face f) → IsTrue (has_vertex mesh f v) }
    ensures itself { (mesh : ObjMesh) (v face : ℕ) → IsTrue (has_vertex mesh face v) → IsTrue (are_joined mesh v face face) }
    ensures through_edges { (mesh : ObjMesh) (v face f g : ℕ) → IsTrue (has_vertex mesh face v) → HaveJoiningEdge mesh v f g
        → are_joined mesh v face f ≡ are_joined mesh v face g }
    ensures through_no_more { (mesh : ObjMesh) (v : ℕ) (kept : ℕ → Bool) → KeepsJoined mesh v kept → (face : ℕ) → IsTrue (kept face)
        → (f : ℕ) → IsTrue (are_joined mesh v face f) → IsTrue (kept f) }
    ensures both_ways { (mesh : ObjMesh) (v f g : ℕ) → IsTrue (has_vertex mesh f v) → IsTrue (has_vertex mesh g v)
        → are_joined mesh v f g ≡ are_joined mesh v g f }
    ensures one_list { (mesh : ObjMesh) (v f g : ℕ) → IsTrue (has_vertex mesh f v) → IsTrue (are_joined mesh v f g)
        → joined_faces mesh v g ≡ joined_faces mesh v f }
    ensures least_first { (mesh : ObjMesh) (v face f : ℕ) → IsTrue (has_vertex mesh face v)
        → IsTrue (are_joined mesh v face f) → get_or (joined_faces mesh v face) 0 face ≤ f }
    ensures one_point { (mesh : ObjMesh) (v f g : ℕ) → IsTrue (has_vertex mesh f v) → IsTrue (has_vertex mesh g v)
        → (point_of mesh f v ≡ point_of mesh g v) ↔ IsTrue (are_joined mesh v f g) }
{}

/// The cut mesh is a manifold over the channel points if the faces of the mesh are simple and no directed edge occurs twice.
/// Faces joined at a vertex form one fan, even if all faces there form several. So the cut mesh of a manifold is a manifold.
pub fn cut_meshes_are_manifolds()
    ensures joined_fans { (mesh : ObjMesh) → AreSimple mesh.faces → IsTrue (has_distinct_sides (all_sides mesh.faces)) → IsManifold (cut_point_count mesh) (cut_faces mesh) }
    ensures manifold { (points : ℕ) (mesh : ObjMesh) → IsManifold points mesh.faces → IsManifold (cut_point_count mesh) (cut_faces mesh) }
{}

/// The cut mesh of a manifold without seams is the mesh, up to the numbers of its points. Faces share a channel point exactly
/// where they share a vertex. The edges, their order and their faces are those of the mesh. With smooth seams the edges are as
/// sharp as in the mesh.
pub fn cut_mesh_without_seams_is_the_mesh()
    ensures renamed { (mesh : ObjMesh) → IsSeamlessManifold mesh → (f g v w : ℕ) → IsTrue (has_vertex mesh f v)
        → IsTrue (has_vertex mesh g w) → (point_of mesh f v ≡ point_of mesh g w) ↔ (v ≡ w) }
    ensures one_to_one { (mesh : ObjMesh) → IsSeamlessManifold mesh → (p q : ℕ) → AreCutPoints mesh p q
        → vertex_of mesh p ≡ vertex_of mesh q → p ≡ q }
    ensures edges { (mesh : ObjMesh) → IsSeamlessManifold mesh → map (vertices_of mesh) (edges_of (cut_faces mesh)) ≡ edges_of mesh.faces }
    ensures edge_faces { (mesh : ObjMesh) → IsSeamlessManifold mesh → (p q : ℕ) → AreCutPoints mesh p q
        → faces_of_edge (cut_faces mesh) (p, q) ≡ faces_of_edge mesh.faces (vertices_of mesh (p, q)) }
    ensures edge_sharpness { (mesh : ObjMesh) → IsSeamlessManifold mesh → (p q : ℕ) → AreCutPoints mesh p q
        → edge_sharpness_of (cut_level SmoothSeams mesh) (p, q) ≡ edge_sharpness_in_mesh mesh (p, q) }
{}

/// Level 0 of the cut mesh has the holes of the mesh. It has the sharpness of the mesh, except that its boundary edges and the
/// points that the mode keeps sharp are infinitely sharp. It is well formed if level 0 of the mesh is.
pub fn cut_levels_are_as_sharp_as_the_mesh()
    ensures boundary { (mode : SeamMode) (mesh : ObjMesh) (edge : ℕ × ℕ) → IsBoundaryEdge (cut_faces mesh) edge
        → edge_sharpness_of (cut_level mode mesh) edge ≡ Infinite }
    ensures edges { (mode : SeamMode) (mesh : ObjMesh) (edge : ℕ × ℕ) → IsInnerEdge (cut_faces mesh) edge
        → edge_sharpness_of (cut_level mode mesh) edge ≡ edge_sharpness_in_mesh mesh edge }
    ensures kept_sharp { (mode : SeamMode) (mesh : ObjMesh) (p : ℕ) → p < cut_point_count mesh
        → IsTrue (is_kept_sharp mode mesh p) → vertex_sharpness_of (cut_level mode mesh) p ≡ Infinite }
    ensures vertices { (mode : SeamMode) (mesh : ObjMesh) (p : ℕ) → p < cut_point_count mesh
        → is_kept_sharp mode mesh p ≡ false → vertex_sharpness_of (cut_level mode mesh) p ≡ sharpness_in_mesh mesh p }
    ensures smooth_seams { (mesh : ObjMesh) (p : ℕ) → p < cut_point_count mesh
        → vertex_sharpness_of (cut_level SmoothSeams mesh) p ≡ sharpness_in_mesh mesh p }
    ensures well_formed { (mode : SeamMode) (mesh : ObjMesh) → IsTrue (is_well_formed (base_level mesh)) → IsTrue (is_well_formed (cut_level mode mesh)) }
    ensures holes { (mode : SeamMode) (mesh : ObjMesh) → (cut_level mode mesh).holes ≡ (base_level mesh).holes }
{}
