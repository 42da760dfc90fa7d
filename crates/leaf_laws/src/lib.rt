//! Laws of the leaf map: which leaf of the sparse levels contains a place of a face of level 0.
//!
//! Each public function has an empty body: its clauses are the laws.
#![tactic(auto)]

pub mod leaves;
pub mod pairs;
pub mod paths;
