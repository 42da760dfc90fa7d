//! Laws of patches: the patches of the children of a face give the values of its patch, and the corners give limit points.
//!
//! Each public function has an empty body: its clauses are the laws.
#![tactic(auto)]

pub mod patches;
