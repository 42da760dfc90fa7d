//! The law of continued refinement: `refine` refines its own output with tags like the mesh that the output came from.

ghost use Rattle.std.specs.Prelude.{◌≡◌, ℕ, ◌+◌, false, None};
ghost use Rattle.std.specs.List.{AllZip};
ghost use Rattle.subdiv_model.specs.Base.{base_level};
ghost use Rattle.subdiv_model.specs.Child.{refined_level};
ghost use Rattle.subdiv_model.specs.ReadObj.{read_obj_fault};
ghost use Rattle.far_model.specs.Command.{ReadCommand, Reads};
ghost use Rattle.far_model.specs.Answer.{IsAcceptedMesh, points_after};
ghost use Rattle.continued_laws.specs.Laws.{IsPointOver, point_lines};
ghost use Rattle.theorems.specs.Continued.{TaggedText, tagged_text, first_mesh, second_mesh, written_level, written_points, HasShortNumbers, FurtherSteps, text_after, text_at_once, vertex_lines};
ghost use Rattle.theorems.specs.ContinuedExamples.{AreStepsOfQuads};

/// The text that `refine` writes at depth k with tags, without decimals, gives the level again. If it is read without fault, its
/// mesh is accepted. Level 0 of that mesh is level k of the first mesh, and its points have the values of the points there.
pub fn tagged_texts_give_the_level_again()
    ensures accepted { (given : TaggedText) (command : ReadCommand) → read_obj_fault (tagged_text given) 0 ≡ None
        → IsAcceptedMesh (Reads command) (tagged_text given) (second_mesh given) }
    ensures level { (given : TaggedText) → base_level (second_mesh given) ≡ written_level given }
    ensures points { (given : TaggedText) → AllZip (IsPointOver (second_mesh given).common) (written_points given) (second_mesh given).points }
{}

/// The text that `refine` writes with tags, without decimals, is read without fault if no number in it is too long.
pub fn tagged_texts_are_read()
    ensures { (given : TaggedText) → HasShortNumbers given → read_obj_fault (tagged_text given) 0 ≡ None }
{}

/// Refining the output of depth k by j steps gives the level and the `v` lines of the first mesh after k + j steps.
///
/// The output has tags and no decimals. If neither run is refused, both answers have these `v` lines. If the first mesh also has no
/// texture, and both runs have the same option for tags, the answers are one text.
pub fn depths_add_up()
    ensures levels { (given : TaggedText) (j : ℕ) → refined_level (base_level (second_mesh given)) j
        ≡ refined_level (base_level (first_mesh given)) (given.options.depth + j) }
    ensures points { (given : TaggedText) (j : ℕ) → point_lines (points_after (second_mesh given) j)
        ≡ point_lines (points_after (first_mesh given) (given.options.depth + j)) }
    ensures lines { (given : TaggedText) (steps : FurtherSteps given) → vertex_lines (text_after steps) ≡ vertex_lines (text_at_once steps) }
    ensures text { (given : TaggedText) (steps : FurtherSteps given) → (first_mesh given).has_texture ≡ false
        → steps.after.tags ≡ steps.at_once.tags → text_after steps ≡ text_at_once steps }
{}

/// An example: two quads with a crease, a corner and a hole. One step from their text after a step writes what two steps write at
/// once.
pub fn quads_are_refined_further()
    ensures { (given : TaggedText) × (steps : FurtherSteps given) × AreStepsOfQuads given steps
        × (text_after steps ≡ text_at_once steps) }
{}
