//! Laws of levels: the form of level 0 and of every later level, and the sharpness and holes that children inherit.
//!
//! Each public function has an empty body: its clauses are the laws. The proofs of other crates cite the lemmas behind them.
#![tactic(auto)]

pub mod levels;
