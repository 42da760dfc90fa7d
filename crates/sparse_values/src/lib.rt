//! Laws of sparse refinement: each point of a sparse level has the mask, value, denominator and support of its uniform point.
//!
//! Each public function has an empty body: its clauses are the laws.
#![tactic(auto)]

pub mod points;
