//! Laws of `frames`: which lines belong to the mesh, which are frame lines, and what each adds to the answer.

ghost use Rattle.std.specs.Prelude.{◌≡◌, ℕ, suc, ◌<◌, ◌≤◌, true, false, List, [], ◌∷◌, ◌++◌, length, None};
ghost use Rattle.subdiv_model.specs.ObjLine.{line_words};
ghost use Rattle.subdiv_model.specs.ObjMesh.{ObjMesh};
ghost use Rattle.subdiv_model.specs.ReadObj.{obj_lines};
ghost use Rattle.far_model.specs.Refusal.{answer_unless};
ghost use Rattle.far_model.specs.Command.{FramesOptions};
ghost use Rattle.far_model.specs.Answer.{frames_refusal};
ghost use Rattle.far_model.specs.Frames.{words_of_lines, frame_after};
ghost use Rattle.stream_laws.specs.Handled.{are_lines, text_of_lines, IsHandled, IsRefusedStart};
ghost use Rattle.stream_laws.specs.Laws.{Asked, FirstFrames, LinesWithFrames, OpenText, bytes_of_text, lines_of_text, rule_for, have_frames, mesh_words, frame_words, frame_of, long_line, answer_with};

/// Lines have the words that the reader of meshes finds in their text. If the last line is not closed, `frames` has the same
/// refusal for the text as for the lines.
pub fn lines_have_the_words_of_their_text()
    ensures words { (lines : List (List ℕ)) → are_lines lines ≡ true → obj_lines (text_of_lines lines) ≡ words_of_lines lines }
    ensures unclosed { (options : FramesOptions) (text : OpenText)
        → frames_refusal options (obj_lines (bytes_of_text text)) ≡ frames_refusal options (words_of_lines (lines_of_text text)) }
{}

/// Before a line `frames` all lines belong to the mesh. At the first such line the mesh has the lines before it, and no frame
/// line exists yet.
pub fn lines_before_frames_are_the_mesh()
    ensures all { (lines : List (List ℕ)) → have_frames lines ≡ false → mesh_words lines ≡ words_of_lines lines }
    ensures mesh { (at : FirstFrames) → mesh_words (at.before ++ at.line ∷ []) ≡ words_of_lines at.before }
    ensures frames { (at : FirstFrames) → frame_words (at.before ++ at.line ∷ []) ≡ [] }
{}

/// After a line `frames` the lines of the mesh do not change. Each further line is a frame line and updates the current frame.
pub fn lines_after_frames_are_frame_lines()
    ensures mesh { (before : List (List ℕ)) (line : List ℕ) → have_frames before ≡ true → mesh_words (before ++ line ∷ []) ≡ mesh_words before }
    ensures frames { (before : List (List ℕ)) (line : List ℕ) → have_frames before ≡ true
        → frame_words (before ++ line ∷ []) ≡ frame_words before ++ line_words line ∷ [] }
    ensures moved { (mesh : ObjMesh) (before : LinesWithFrames) (line : List ℕ) → frame_of mesh (before.lines ++ line ∷ []) ≡ frame_after mesh.common (frame_of mesh before.lines) (line_words line) }
{}

/// The lines of the mesh add nothing to the answer, and bytes that LF has not closed are accepted. The mesh is judged at the first
/// line `frames`, or at the end of the input.
pub fn lines_of_a_mesh_add_nothing()
    ensures lines { (asked : Asked) (lines : List (List ℕ)) → are_lines lines ≡ true → have_frames lines ≡ false → IsHandled (rule_for asked) lines [] }
    ensures unclosed { (asked : Asked) (before : List (List ℕ)) (bytes : List ℕ) → have_frames before ≡ false → (rule_for asked).unclosed before bytes ≡ None }
    ensures frames { (asked : Asked) (at : FirstFrames)
        → (rule_for asked).line at.before at.line ≡ answer_unless (asked.refusal (words_of_lines at.before)) [] }
    ensures end { (asked : Asked) (before : List (List ℕ)) → have_frames before ≡ false
        → (rule_for asked).end before ≡ answer_with [] (asked.refusal (words_of_lines before)) }
{}

/// Pending bytes of a line are accepted up to 65,535. More bytes of a frame line are refused, whatever follows them.
pub fn long_frame_lines_are_refused()
    ensures short { (asked : Asked) (before : List (List ℕ)) (bytes : List ℕ) → length bytes ≤ 65535 → (rule_for asked).unclosed before bytes ≡ None }
    ensures long { (asked : Asked) (before : LinesWithFrames) (bytes : List ℕ) → 65535 < length bytes → IsRefusedStart (rule_for asked) before.lines bytes (long_line (suc (length before.lines))) }
{}
