//! Laws of the calls of an [`Out`](crate::Out).
//!
//! The public function takes nothing, does nothing and returns nothing: its clauses are the laws.

ghost use Rattle.std.specs.Prelude.{◌≡◌, ℕ, ◌≤◌, List, ◌++◌, Option, []};
ghost use Rattle.far_io.specs.Bytes.{Added, AddedPrefix, Rose};
ghost use Rattle.obj_out.specs.TextSoFar.{CallAfter, IsTextSoFar};

/// After each call the text so far consists of the texts of all calls, in order. A failed call, and a failed `end`, leaves a prefix of it
/// on the sink; a successful `end` leaves the whole of it.
pub fn calls_follow_one_another()
    ensures none { (start : Option (List ℕ)) → IsTextSoFar start start [] [] }
    ensures put { (call : CallAfter) → IsTextSoFar call.start call.new call.waits (call.before ++ call.text) }
    ensures failed { (start old new : Option (List ℕ)) (waited before text : List ℕ) → IsTextSoFar start old waited before → AddedPrefix old new (waited ++ text) → AddedPrefix start new (before ++ text) }
    ensures whole { (start old new : Option (List ℕ)) (waited before : List ℕ) → IsTextSoFar start old waited before → Added old new waited → Added start new before }
    ensures unfinished { (start old new : Option (List ℕ)) (waited before : List ℕ) → IsTextSoFar start old waited before → AddedPrefix old new waited → AddedPrefix start new before }
    ensures more { (start held : Option (List ℕ)) (before text : List ℕ) → AddedPrefix start held before → AddedPrefix start held (before ++ text) }
    ensures cause { (start old new : ℕ) → start ≤ old → Rose old new → Rose start new }
    ensures since { (start old new : ℕ) → Rose start old → old ≤ new → Rose start new }
{}
