//! Makes the next sparse level: the child faces around the faces that a rule selects.
//!
//! The crate reads the tables of the level, without a map and without a scan. Source: the sparse refinement of OpenSubdiv's
//! Vtr layer. The choice of the present faces is this library's own.
//!
//! `part_level` makes the level of any part of the next level: some child faces and their points. The caller numbers the
//! points and edges of the part and computes the sharpness of the halves of edges first, with `child_slots`.
#![tactic(auto)]

mod edges;
mod faces;
mod halves;
mod level;
mod part;
mod places;
mod points;
mod refine;
mod shape;
mod step;
mod tables;

pub use part::part_level;
pub use refine::refine_selected;
pub use shape::PartShape;
pub use sparse_level::{SparseLevel, SparseStep};
pub use uniform_refiner::RefineFault;
