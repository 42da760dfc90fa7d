//! Laws of limit points: refining a level by further steps does not move them.
//!
//! Each public function has an empty body: its clauses are the laws.
#![tactic(auto)]

pub mod steps;
