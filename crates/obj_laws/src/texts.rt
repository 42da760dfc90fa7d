//! Laws of whole OBJ texts: the causes of their faults, and the points and faces that a mesh names.

ghost use Rattle.std.specs.Prelude.{◌≡◌, ◌+◌, ◌*◌, ◌≤◌, ℕ, length, sum_by, IsTrue, IfSome, None, List};
ghost use Rattle.subdiv_model.specs.ObjFault.{is_of_reading};
ghost use Rattle.subdiv_model.specs.ObjMesh.{has_faces_over_points, has_corners_over_texture, has_creases_over_points, has_corner_tags_over_points, has_holes_over_faces};
ghost use Rattle.subdiv_model.specs.ReadObj.{read_obj_fault, read_obj_mesh};

/// Reading a text reports one of ten causes. The other three causes are those of frame lines only.
pub fn reading_gives_ten_causes()
    ensures { (text : List ℕ) (least : ℕ) → IfSome (read_obj_fault text least) (λ fault. IsTrue (is_of_reading fault.cause)) }
{}

/// In a mesh read without fault each index is in its list. Corners, creases and corner tags name points, texture corners name
/// texture values, and holes name faces.
pub fn read_numbers_name_what_they_count()
    ensures faces { (text : List ℕ) (least : ℕ) → read_obj_fault text least ≡ None → IsTrue (has_faces_over_points (read_obj_mesh text least)) }
    ensures texture { (text : List ℕ) (least : ℕ) → read_obj_fault text least ≡ None → IsTrue (has_corners_over_texture (read_obj_mesh text least)) }
    ensures creases { (text : List ℕ) (least : ℕ) → read_obj_fault text least ≡ None → IsTrue (has_creases_over_points (read_obj_mesh text least)) }
    ensures corners { (text : List ℕ) (least : ℕ) → read_obj_fault text least ≡ None → IsTrue (has_corner_tags_over_points (read_obj_mesh text least)) }
    ensures holes { (text : List ℕ) (least : ℕ) → read_obj_fault text least ≡ None → IsTrue (has_holes_over_faces (read_obj_mesh text least)) }
{}

/// Each corner of a face takes at least two bytes of the text, and each face one more.
pub fn corners_take_two_bytes()
    ensures { (text : List ℕ) (least : ℕ) → 2 * sum_by length (read_obj_mesh text least).faces + length (read_obj_mesh text least).faces ≤ length text }
{}
