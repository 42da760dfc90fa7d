//! Laws of sparse texture levels: the sparse levels of a texture select the faces that the sparse levels of the mesh select.
//!
//! Each public function has an empty body: its clauses are the laws.
#![tactic(auto)]

pub mod cuts;
pub mod selections;
