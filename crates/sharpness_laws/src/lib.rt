//! Laws of sharpness and masks: the order of edges, faces and corners at a point does not matter, nor do the terms of fractions.
//!
//! Each public function has an empty body: its clauses are the laws. The proofs of other crates cite the lemmas behind them.
#![tactic(auto)]

pub mod masks;
pub mod rings;
