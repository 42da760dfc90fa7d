//! Makes the next uniform level of a level: the whole level after one step of Catmull and Clark's scheme.
//!
//! The crate reads the tables of the level, without a map and without a scan. It refuses a level that would have more than
//! 2^22 faces.
#![tactic(auto)]

mod count;
mod edge_points;
mod edges;
mod face_points;
mod faces;
mod fault;
mod halves;
mod level;
mod numbering;
mod origins;
mod points;
mod uniform;
mod vertices;

pub use count::next_faces;
pub use fault::RefineFault;
pub use uniform::refine;
