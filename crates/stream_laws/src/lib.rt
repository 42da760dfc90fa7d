//! Laws of commands that answer line by line: what each line adds, and where the answer ends.
//!
//! Each public function has an empty body: its clauses are the laws. The proofs of `far_engine` cite the lemmas behind them.
#![tactic(auto)]

pub mod frames;
pub mod lines;
