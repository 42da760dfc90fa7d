//! The law that lines are read back from their text.

ghost use Rattle.std.specs.Prelude.{◌≡◌, List, ◌++◌, map};
ghost use Rattle.subdiv_model.specs.ReadObj.{obj_lines};
ghost use Rattle.text_laws.specs.Laws.{ArePlain, Line, text_of, words_of};

/// Plain lines are read back from their text, also from several texts in sequence.
pub fn plain_lines_are_read_back()
    ensures one { (lines : List Line) → ArePlain lines → obj_lines (text_of lines) ≡ map words_of lines }
    ensures two { (first second : List Line) → ArePlain first → ArePlain second → obj_lines (text_of first ++ text_of second) ≡ map words_of first ++ map words_of second }
{}
