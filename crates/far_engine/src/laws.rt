//! Laws: a run whose counts of faults do not rise gives the defined answer.
//!
//! Each public function here takes nothing, does nothing and returns nothing: its clauses are the laws. They are true of `run` and of
//! `program`, whose contracts have the record `Runs`.

ghost use Rattle.far_model.specs.Answer.{answer};
ghost use Rattle.far_engine.specs.Laws.{IsAnsweredBy, RunInMemory, RunWithoutFaults};

use far_io::{Sink, Source, SureSink, SureSource};

/// If neither count of faults rises, a run gives the answer that is defined for its words and bytes, or ends with `Memory`.
pub fn runs_without_faults_give_the_answer<S: Source, K: Sink>()
    ensures { (run : RunWithoutFaults S.Source K.Sink) → IsAnsweredBy K.Sink (answer run.words run.bytes) run.before run.after run.outcome }
{}

/// A run in memory gives the answer that is defined for its words and bytes, or ends with `Memory`. Its sink has capacity for the text
/// and one byte more.
pub fn runs_in_memory_give_the_answer()
    ensures { (run : RunInMemory ⟦<SureSource as Source>⟧ ⟦<SureSink as Sink>⟧)
        → IsAnsweredBy ⟦<SureSink as Sink>⟧ (answer run.words run.bytes) run.before run.after run.outcome }
{}
