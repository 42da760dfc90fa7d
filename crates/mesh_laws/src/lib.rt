//! Laws of polygons, manifolds and their child levels, with the lemmas that the proofs of other crates cite.
//!
//! Each public function has an empty body: its clauses are the laws. Points and faces are counted from 0.
#![tactic(auto)]

pub mod manifolds;
