//! Laws of sparse levels: refining only the selected faces gives exactly the faces and points that the definitions choose from
//! the uniform levels.
//!
//! Each public function has an empty body: its clauses are the laws. `whole_levels_are_sparse` is level 0, and
//! `next_levels_are_sparse` is the step to the next level.
#![tactic(auto)]

pub mod levels;
pub mod next;
pub mod written;
