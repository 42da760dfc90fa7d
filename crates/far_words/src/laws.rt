//! Laws of the options of a command: their order, their values, and the place of the first bad word.

ghost use Rattle.std.specs.Prelude.{◌≡◌, ℕ, ◌+◌, ◌≤◌, not, ◌||◌, List, ◌∷◌, length, is_some, Some, None, IsTrue};
ghost use Rattle.std.specs.List.{list_all};
ghost use Rattle.far_model.specs.Words.{usage_of, value_of};
ghost use Rattle.far_model.specs.Command.{read_words_by};
ghost use Rattle.far_words.specs.Laws.{RefusedWords, ReorderedWords, UnderstoodWords, allows};

/// The order of the options does not change the command.
pub fn options_go_in_any_order()
    ensures understood { (words : ReorderedWords) → usage_of words.table (words.command ∷ words.others) ≡ None }
    ensures same { (words : ReorderedWords)
        → read_words_by words.table (words.command ∷ words.others) ≡ read_words_by words.table (words.command ∷ words.options) }
{}

/// The place of the first bad word is at most one more than the number of options that the command has.
pub fn bad_words_come_early()
    ensures { (words : RefusedWords) → words.bad_word ≤ length words.rule.options + 1 }
{}

/// Every option of an understood command has a value that the table allows, and every required option has a value.
pub fn values_are_allowed()
    ensures allowed { (words : UnderstoodWords) (name value : List ℕ) → value_of words.options name ≡ Some value
        → IsTrue (allows words.rule name value) }
    ensures required { (words : UnderstoodWords)
        → IsTrue (list_all (λ option. not option.required || is_some (value_of words.options option.name)) words.rule.options) }
{}
