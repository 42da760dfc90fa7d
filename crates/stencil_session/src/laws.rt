//! Laws of all sessions.
//!
//! Each public function here takes nothing, does nothing and returns nothing: its clauses are the laws.

ghost use Rattle.std.specs.Prelude.{◌≡◌, ◌↔◌, ℕ, ◌<◌, false, List, length, get_or};
ghost use Rattle.stencil_apply.specs.Table.{row_at};
ghost use Rattle.stencil_session.specs.Session.{State, IsState, after_moves, row_value, sum_of_three};
ghost use Rattle.stencil_session.specs.Laws.{MovedState, UnmarkedState, controls_after, has_moved, moved_rows, marked_rows, AreTaken};

/// A session agrees with its table. After moves without a fault, each control has the value of its last move, or its first
/// value if none moves it. The value of each point is its row's sum over these controls, and all numbers are within their
/// bounds.
pub fn sessions_agree_with_their_tables()
    ensures state { (moved : MovedState) → IsState (after_moves moved.state moved.moves) }
    ensures controls { (moved : MovedState) → (after_moves moved.state moved.moves).controls ≡ controls_after moved.state moved.moves }
    ensures values { (moved : MovedState) (row : ℕ) → row_value (after_moves moved.state moved.moves) row
        ≡ sum_of_three (controls_after moved.state moved.moves) (row_at moved.state.table row) }
{}

/// From a state without marks, moves mark exactly the rows that have a moved control. Repeated calls of `next_changed` return
/// the marked rows, ascending, each once.
pub fn marks_name_the_rows_of_moved_controls()
    ensures marks { (run : UnmarkedState) (row : ℕ) → row < length run.state.table.rows → get_or (after_moves run.state run.moves).marks row false ≡ has_moved run.state.table run.moves row }
    ensures rows { (run : UnmarkedState) → marked_rows (after_moves run.state run.moves).marks ≡ moved_rows run.state.table run.moves }
    ensures answers { (state : State) (rows : List ℕ) → AreTaken state rows ↔ (rows ≡ marked_rows state.marks) }
{}
