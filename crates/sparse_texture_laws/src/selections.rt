//! Laws of selections: the faces selected in one level, taken by number in another level with the same faces.

ghost use Rattle.std.specs.Prelude.{◌≡◌, ℕ, ◌<◌, ◌≤◌, List};
ghost use Rattle.subdiv_model.specs.Level.{Level};
ghost use Rattle.subdiv_model.specs.Sparse.{FacePredicate, inner, selected, predicate_to};
ghost use Rattle.subdiv_model.specs.SparseText.{written_level};
ghost use Rattle.subdiv_model.specs.SparseTexture.{selected_to};
ghost use Rattle.sparse_texture_laws.specs.Selection.{IsSelection, is_chosen_in, selected_numbers};
ghost use Rattle.sparse_texture_laws.specs.Cut.{HaveSameFaces};

/// The faces that a predicate selects, level by level, are a selection in each level with the same faces.
pub fn selected_faces_are_a_selection()
    ensures { (base cut : Level) (predicate : FacePredicate) (depth : ℕ) → HaveSameFaces base cut → IsSelection cut depth (selected_to base predicate depth) }
{}

/// Let the selected faces of a level be selected by number in a level with the same faces. Then both levels have the same selected
/// faces and the same inner faces.
pub fn faces_are_selected_by_their_numbers()
    ensures selected { (base cut : Level) (predicate : FacePredicate) (depth k : ℕ) → HaveSameFaces base cut → k < depth
        → selected cut (selected_to base predicate depth) k ≡ selected base predicate k }
    ensures inner { (base cut : Level) (predicate : FacePredicate) (depth k : ℕ) → HaveSameFaces base cut → k ≤ depth
        → inner cut (selected_to base predicate depth) k ≡ inner base predicate k }
{}

/// A selection is the predicate of a test: the test accepts the faces whose numbers are listed.
pub fn selections_are_predicates()
    ensures { (base : Level) (depth : ℕ) (numbers : List (List ℕ)) → IsSelection base depth numbers → predicate_to (is_chosen_in numbers) base depth ≡ numbers }
{}

/// The output of a level lists as selected exactly the selected faces.
pub fn written_levels_show_the_selected_faces()
    ensures { (base : Level) (predicate : FacePredicate) (depth : ℕ) → selected_numbers (written_level base predicate depth) ≡ selected base predicate depth }
{}
