//! Laws of the texts of meshes: they consist of plain lines, and are read back as these lines.

ghost use Rattle.std.specs.Prelude.{◌≡◌, ℕ, pos, negsuc, Bool, List, [], ◌∷◌, ◌++◌, get_or, None, IsTrue};
ghost use Rattle.subdiv_model.specs.Sharpness.{Semi, Infinite, Chaikin};
ghost use Rattle.std.specs.List.{list_all};
ghost use Rattle.subdiv_model.specs.Level.{Level};
ghost use Rattle.subdiv_model.specs.Refined.{Point};
ghost use Rattle.subdiv_model.specs.ReadObj.{read_obj_fault, read_obj_mesh};
ghost use Rattle.subdiv_model.specs.Text.{mesh_text, tags_text};
ghost use Rattle.text_laws.specs.Laws.{ArePlain, text_of};
ghost use Rattle.text_laws.specs.MeshLines.{IsReadAs, MeshToWrite, lines_to_write, mesh_lines, tag_lines, text_to_write};
ghost use Rattle.text_laws.specs.Examples.{marked_quads, marked_text};
ghost use Rattle.text_laws.specs.ReadMesh.{WrittenMesh, mesh_read, has_corners, TexturedMesh, textured_read, IsReadBack, IsTextureReadBack, HasNoTexture};

/// The text of a mesh, of a mesh with texture and of tags is the text of its lines.
pub fn mesh_texts_are_lines()
    ensures mesh { (holes : Bool) (level : Level) (points : List Point) → mesh_text None holes level points ≡ text_of (mesh_lines holes level points) }
    ensures textured { (mesh : MeshToWrite) → text_to_write mesh ≡ text_of (lines_to_write mesh) }
    ensures tags { (level : Level) → tags_text level ≡ text_of (tag_lines level) }
{}

/// The lines of a mesh, of a mesh with texture and of tags are plain.
pub fn mesh_lines_are_plain()
    ensures mesh { (holes : Bool) (level : Level) (points : List Point) → ArePlain (mesh_lines holes level points) }
    ensures textured { (mesh : MeshToWrite) → ArePlain (lines_to_write mesh) }
    ensures tags { (level : Level) → ArePlain (tag_lines level) }
{}

/// The text of a mesh with its tags is read back as its lines, with texture and without.
pub fn mesh_texts_are_read_back()
    ensures mesh { (holes : Bool) (level : Level) (points : List Point) → IsReadAs (mesh_text None holes level points ++ tags_text level) (mesh_lines holes level points ++ tag_lines level) }
    ensures textured { (mesh : MeshToWrite) → IsReadAs (text_to_write mesh ++ tags_text mesh.level) (lines_to_write mesh ++ tag_lines mesh.level) }
{}

/// A well-formed level, written with its points and tags, is read back: its points, faces, sharpness, holes and method. If each
/// face has a corner, no texture is read.
pub fn meshes_are_read_back()
    ensures mesh { (mesh : WrittenMesh) (least : ℕ) → IsReadBack mesh.level mesh.points (mesh_read mesh least) }
    ensures untextured { (mesh : WrittenMesh) (least : ℕ) → IsTrue (list_all has_corners mesh.level.polygons) → HasNoTexture (mesh_read mesh least) }
{}

/// A level written with texture is read back with its texture values and the faces of its cut level.
pub fn textured_meshes_are_read_back()
    ensures mesh { (given : TexturedMesh) (least : ℕ) → IsReadBack given.mesh.level given.mesh.points (textured_read given least) }
    ensures texture { (given : TexturedMesh) (least : ℕ) → IsTextureReadBack given.cut given.texture (textured_read given least) }
{}

/// An example: two quads with a coordinate of -1/3, a crease of 3/2, a corner of 10 and a hole. Their text is read without fault,
/// over the common denominator 6.
pub fn marked_quads_are_read_back()
    ensures fault { read_obj_fault marked_text 0 ≡ None }
    ensures common { (read_obj_mesh marked_text 0).common ≡ 6 }
    ensures point { get_or (read_obj_mesh marked_text 0).points 1 (pos 0, pos 0, pos 0) ≡ (pos 6, pos 0, negsuc 1) }
    ensures faces { (read_obj_mesh marked_text 0).faces ≡ marked_quads.polygons }
    ensures creases { (read_obj_mesh marked_text 0).creases ≡ ((1, 2), Semi 3 2) ∷ [] }
    ensures corner_tags { (read_obj_mesh marked_text 0).corner_tags ≡ (4, Infinite) ∷ [] }
    ensures holes { (read_obj_mesh marked_text 0).holes ≡ 1 ∷ [] }
    ensures method { (read_obj_mesh marked_text 0).method ≡ Chaikin }
{}
