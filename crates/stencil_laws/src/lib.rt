//! Laws of supports and stencil rows: which control points a refined point depends on, and with which shares.
//!
//! Each public function has an empty body: its clauses are the laws. The proofs of other crates cite the lemmas behind them.
#![tactic(auto)]

pub mod rows;
