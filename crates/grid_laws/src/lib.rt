//! Laws of the 16 points around a regular face: they form nine quads, and so do the points around each child of the face.
//!
//! Each public function has an empty body: its clauses are the laws.
#![tactic(auto)]

pub mod grids;
