//! Laws of tags, from the lines of an OBJ text to level 0: the last tag that names an item counts, and holes add up.
//!
//! The record `LastOf` holds a list split as `before`, `element` and `after`: the element passes a test, and no item of `after`
//! does.

ghost use Rattle.std.specs.Prelude.{◌≡◌, ℕ, ◌<◌, false, ◌||◌, length, IsTrue};
ghost use Rattle.std.specs.List.{list_any};
ghost use Rattle.subdiv_model.specs.Polygons.{is_among, polygon_at};
ghost use Rattle.subdiv_model.specs.Edges.{is_boundary};
ghost use Rattle.subdiv_model.specs.Sharpness.{Normal, Smooth, Infinite};
ghost use Rattle.subdiv_model.specs.Boundary.{EdgeOnly};
ghost use Rattle.subdiv_model.specs.ObjMesh.{ObjMesh};
ghost use Rattle.subdiv_model.specs.ObjTag.{tag_creases, tag_corners, tag_mode, tag_method};
ghost use Rattle.subdiv_model.specs.ReadObj.{faces_of, boundary_of};
ghost use Rattle.subdiv_model.specs.Level.{edge_sharpness_of, vertex_sharpness_of, is_hole};
ghost use Rattle.subdiv_model.specs.Base.{tagged_edge, tagged_vertex, is_hidden, base_level};
ghost use Rattle.mesh_laws.specs.Edges.{IsInnerEdge};
ghost use Rattle.theorems.specs.Laws.{Text, LastCrease, LastCornerTag, LastCreaseLine, LastCornerLine, LastBoundaryLine, LastMethodLine, is_crease_of, is_corner_tag_of, mesh_of, level_of, edge_sharpness, vertex_sharpness, vertex_count, face_count, corner_sharpness, is_corner_by_mode, is_mode_corner, is_hole_under, sharpness_under};
ghost use Rattle.theorems.specs.TagLines.{is_crease_line_of, is_corner_line_of, is_hole_line_of, is_boundary_line, is_method_line};

// From the text to the mesh.

/// The creases of a mesh give an edge its sharpness in the last crease line that names it. There the last pair that names it
/// counts.
pub fn last_crease_line_counts()
    ensures { (text : Text) (edge : ℕ × ℕ) (last : LastCreaseLine text edge)
        → tagged_edge (mesh_of text).creases edge ≡ tagged_edge (tag_creases last.element) edge }
{}

/// The corner tags of a mesh give a vertex its sharpness in the last corner line that names it. There the last place that names it
/// counts.
pub fn last_corner_line_counts()
    ensures { (text : Text) (v : ℕ) (last : LastCornerLine text v)
        → tagged_vertex (mesh_of text).corner_tags v ≡ tagged_vertex (tag_corners last.element) v }
{}

/// The mesh names a face as a hole exactly where one of the hole lines names it.
pub fn hole_lines_add_up()
    ensures { (text : Text) (face : ℕ) → is_among (mesh_of text).holes face ≡ list_any (is_hole_line_of face) text.lines }
{}

/// The boundary mode is that of the last line that sets one. Without such a line it is edge only.
pub fn last_boundary_line_counts()
    ensures last { (text : Text) (last : LastBoundaryLine text) → (mesh_of text).boundary ≡ tag_mode last.element }
    ensures untagged { (text : Text) → list_any is_boundary_line text.lines ≡ false → (mesh_of text).boundary ≡ EdgeOnly }
{}

/// The method is that of the last line that sets one. Without such a line it is `normal`.
pub fn last_method_line_counts()
    ensures last { (text : Text) (last : LastMethodLine text) → (mesh_of text).method ≡ tag_method last.element }
    ensures untagged { (text : Text) → list_any is_method_line text.lines ≡ false → (mesh_of text).method ≡ Normal }
{}

// From the mesh to level 0.

/// At level 0 an inner edge has the sharpness of the last crease that names it, and is smooth if none does. A boundary edge is
/// infinitely sharp, whatever its creases.
pub fn last_tag_names_the_edge()
    ensures last { (mesh : ObjMesh) (edge : ℕ × ℕ) (last : LastCrease mesh edge) → IsInnerEdge mesh.faces edge
        → edge_sharpness_of (base_level mesh) edge ≡ last.element.1 }
    ensures untagged { (mesh : ObjMesh) (edge : ℕ × ℕ) → list_any (is_crease_of edge) mesh.creases ≡ false
        → is_boundary mesh.faces edge ≡ false → edge_sharpness_of (base_level mesh) edge ≡ Smooth }
    ensures boundary { (mesh : ObjMesh) (edge : ℕ × ℕ) → IsTrue (is_boundary mesh.faces edge)
        → edge_sharpness_of (base_level mesh) edge ≡ Infinite }
{}

/// At level 0 a vertex has the sharpness of the last corner tag that names it, and is smooth if none does. A vertex that the
/// boundary mode makes a corner is infinitely sharp, whatever its tags.
pub fn last_tag_names_the_vertex()
    ensures last { (mesh : ObjMesh) (v : ℕ) (last : LastCornerTag mesh v) → v < length mesh.points
        → is_corner_by_mode mesh v ≡ false → vertex_sharpness_of (base_level mesh) v ≡ last.element.1 }
    ensures untagged { (mesh : ObjMesh) (v : ℕ) → list_any (is_corner_tag_of v) mesh.corner_tags ≡ false
        → is_corner_by_mode mesh v ≡ false → vertex_sharpness_of (base_level mesh) v ≡ Smooth }
    ensures end_corner { (mesh : ObjMesh) (v : ℕ) → v < length mesh.points → IsTrue (is_corner_by_mode mesh v)
        → vertex_sharpness_of (base_level mesh) v ≡ Infinite }
{}

/// At level 0 a face is a hole exactly where a tag names it or the boundary mode hides it.
pub fn holes_add_up()
    ensures { (mesh : ObjMesh) (face : ℕ) → face < length mesh.faces
        → is_hole (base_level mesh) face ≡ (is_among mesh.holes face || is_hidden mesh.boundary mesh.faces (polygon_at mesh.faces face)) }
{}

// From the text to level 0.

/// At level 0 an inner edge has its sharpness in the last crease line that names it, by the last pair there that names it. It is
/// smooth if no crease line names it. A boundary edge is infinitely sharp, whatever the crease lines.
pub fn last_crease_line_gives_the_edge()
    ensures last { (text : Text) (edge : ℕ × ℕ) (last : LastCreaseLine text edge) → IsInnerEdge (faces_of text.lines) edge
        → edge_sharpness text edge ≡ tagged_edge (tag_creases last.element) edge }
    ensures untagged { (text : Text) (edge : ℕ × ℕ) → list_any (is_crease_line_of edge) text.lines ≡ false
        → is_boundary (faces_of text.lines) edge ≡ false → edge_sharpness text edge ≡ Smooth }
    ensures boundary { (text : Text) (edge : ℕ × ℕ) → IsTrue (is_boundary (faces_of text.lines) edge) → edge_sharpness text edge ≡ Infinite }
{}

/// At level 0 a vertex has its sharpness in the last corner line that names it, by the last place there that names it. It is
/// smooth if no corner line names it. A vertex that the boundary mode makes a corner is infinitely sharp, whatever its tags.
pub fn last_corner_line_gives_the_vertex()
    ensures last { (text : Text) (v : ℕ) (last : LastCornerLine text v) → v < vertex_count text → is_mode_corner text v ≡ false
        → vertex_sharpness text v ≡ tagged_vertex (tag_corners last.element) v }
    ensures untagged { (text : Text) (v : ℕ) → list_any (is_corner_line_of v) text.lines ≡ false → is_mode_corner text v ≡ false
        → vertex_sharpness text v ≡ Smooth }
    ensures end_corner { (text : Text) (v : ℕ) → v < vertex_count text → IsTrue (is_mode_corner text v) → vertex_sharpness text v ≡ Infinite }
{}

/// A face of level 0 is a hole exactly where a hole line names it or the boundary mode hides it.
pub fn hole_lines_give_the_holes()
    ensures { (text : Text) (face : ℕ) → face < face_count text
        → is_hole (level_of text) face ≡ is_hole_under (boundary_of text.lines) text face }
{}

/// The last line that sets a boundary mode decides which vertices of level 0 are infinitely sharp corners and which faces are
/// hidden. Other vertices have what corner lines give them. Without such a line there are no such corners and no hidden faces.
pub fn last_boundary_line_gives_the_mode()
    ensures vertices { (text : Text) (v : ℕ) (last : LastBoundaryLine text) → v < vertex_count text
        → vertex_sharpness text v ≡ sharpness_under (tag_mode last.element) text v }
    ensures holes { (text : Text) (face : ℕ) (last : LastBoundaryLine text) → face < face_count text
        → is_hole (level_of text) face ≡ is_hole_under (tag_mode last.element) text face }
    ensures untagged_vertices { (text : Text) (v : ℕ) → list_any is_boundary_line text.lines ≡ false → v < vertex_count text
        → vertex_sharpness text v ≡ corner_sharpness text v }
    ensures untagged_holes { (text : Text) (face : ℕ) → list_any is_boundary_line text.lines ≡ false → face < face_count text
        → is_hole (level_of text) face ≡ list_any (is_hole_line_of face) text.lines }
{}

/// The method of level 0 is that of the last line that sets one. Without such a line it is `normal`.
pub fn last_method_line_gives_the_method()
    ensures last { (text : Text) (last : LastMethodLine text) → (level_of text).method ≡ tag_method last.element }
    ensures untagged { (text : Text) → list_any is_method_line text.lines ≡ false → (level_of text).method ≡ Normal }
{}
