//! Laws of masks and refined values: masks are means, boundaries stay sharp, and refined values follow translations of the
//! control points.
//!
//! Each public function has an empty body: its clauses are the laws. The proofs of other crates cite the lemmas behind them.
#![tactic(auto)]

pub mod masks;
pub mod values;
