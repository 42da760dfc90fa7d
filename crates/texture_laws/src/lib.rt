//! Laws of texture channels and their cut meshes: which faces share a channel point, and what the cut mesh keeps of the mesh.
//!
//! Each public function has an empty body: its clauses are the laws. The proofs of other crates cite the lemmas behind them.
#![tactic(auto)]

pub mod cuts;
