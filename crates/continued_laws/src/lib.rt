//! Laws of continued refinement: a mesh made of a refined level and its tags refines like the mesh it came from.
//!
//! Each public function has an empty body: its clauses are the laws. The proofs of other crates cite the lemmas behind them.
#![tactic(auto)]

pub mod levels;
pub mod meshes;
pub mod points;
