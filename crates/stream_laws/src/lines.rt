//! Laws of every command that answers line by line: what its lines add, and where the answer ends.

ghost use Rattle.std.specs.Prelude.{◌≡◌, ℕ, ◌<◌, List, [], ◌∷◌, ◌++◌, length, None};
ghost use Rattle.subdiv_model.specs.Fault.{Long};
ghost use Rattle.far_model.specs.Stream.{LineRule, answer_so_far, answer_of_all, answer_of_lines};
ghost use Rattle.stream_laws.specs.Handled.{IsHandled};
ghost use Rattle.stream_laws.specs.Laws.{Handled, IsAnswered, IsAnsweredFrom, Pending, RefusedLine, RefusedStart, EndOfLines, EndOfLine, BeginsWith, answer_with, bytes_of, bytes_to, closed_to, lines_to, added_by, text_with, unclosed_at, refused_after};

/// No lines give no text. A line that is not refused adds its text to the text of the lines before it.
pub fn lines_are_handled_one_by_one()
    ensures none { (rule : LineRule) → IsHandled rule [] [] }
    ensures more { (rule : LineRule) (at : Pending rule) (text : List ℕ) → added_by at ≡ answer_with text None
        → IsHandled rule (lines_to at) (at.before.text ++ text) }
{}

/// If a line is refused, the answer is the text of the lines before it and the refusal, whatever follows. This also holds for the
/// last line of an input, if no LF closes it.
pub fn refused_lines_end_the_answer()
    ensures closed { (rule : LineRule) (at : RefusedLine rule) → IsAnsweredFrom rule (closed_to at.line) (refused_after at.line at.fault) }
    ensures last { (rule : LineRule) (at : RefusedLine rule) → 0 < length at.line.bytes → IsAnswered rule (bytes_to at.line) (refused_after at.line at.fault) }
{}

/// If pending bytes are refused whatever follows them, the answer is the text of the lines before them and the refusal.
pub fn refused_bytes_end_the_answer()
    ensures { (rule : LineRule) (at : RefusedStart rule) → IsAnsweredFrom rule (bytes_to at.start) (refused_after at.start at.fault) }
{}

/// Pending bytes that are not refused add nothing yet. If all bytes so far fill the limit, an input with more bytes is too long.
pub fn pending_bytes_add_nothing()
    ensures so_far { (rule : LineRule) (at : Pending rule) → unclosed_at at ≡ None → answer_so_far rule (bytes_to at) ≡ answer_with at.before.text None }
    ensures long { (rule : LineRule) (at : Pending rule) (b : ℕ) (more : List ℕ) → unclosed_at at ≡ None
        → answer_of_lines rule (length (bytes_to at)) (bytes_to at ++ b ∷ more) ≡ refused_after at Long }
{}

/// The answer to a whole input is the text of its lines, then the refusal of the end, if there is one. Bytes that no LF closes are
/// the last line.
pub fn the_end_comes_last()
    ensures closed { (rule : LineRule) (at : EndOfLines rule) → IsAnswered rule (bytes_of at.lines) (answer_with at.lines.text at.refusal) }
    ensures last { (rule : LineRule) (at : EndOfLine rule) → IsAnswered rule (bytes_to at.line) (answer_with (at.line.before.text ++ at.text) at.refusal) }
{}

/// Text that was written stays: the answer begins with it, whatever bytes follow.
pub fn what_is_written_stays()
    ensures handled { (rule : LineRule) (at : Handled rule) (more : List ℕ) → BeginsWith at.text (answer_of_all rule (bytes_of at ++ more)).text }
    ensures closed { (rule : LineRule) (at : Pending rule) (more : List ℕ) → (added_by at).refusal ≡ None
        → BeginsWith (text_with at) (answer_of_all rule (closed_to at ++ more)).text }
    ensures last { (rule : LineRule) (at : Pending rule) → 0 < length at.bytes → (added_by at).refusal ≡ None
        → BeginsWith (text_with at) (answer_of_all rule (bytes_to at)).text }
{}
