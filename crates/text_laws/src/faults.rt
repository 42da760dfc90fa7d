//! The law that texts of meshes are read without fault, if no number is too long.

ghost use Rattle.std.specs.Prelude.{◌≡◌, ℕ, None};
ghost use Rattle.subdiv_model.specs.ReadObj.{read_obj_fault};
ghost use Rattle.text_laws.specs.ReadMesh.{WrittenMesh, written_text, mesh_read, TexturedMesh, textured_text};
ghost use Rattle.text_laws.specs.Readable.{IsReadable, IsTexturedReadable};

/// The text of a level with its tags is read without fault if each face has a corner and no number is too long. The law holds with
/// texture and without.
pub fn written_meshes_are_read_without_fault()
    ensures mesh { (mesh : WrittenMesh) (least : ℕ) → IsReadable mesh.level mesh.points (mesh_read mesh least) → read_obj_fault (written_text mesh) least ≡ None }
    ensures textured { (given : TexturedMesh) (least : ℕ) → IsTexturedReadable given least → read_obj_fault (textured_text given) least ≡ None }
{}
