//! Builds levels from faces with numbered edges, in linear time: it makes the lists of faces and edges at each point.
//!
//! The lists are in fan order at points marked complete, and ascend elsewhere. The crate numbers no edges and keeps no map; `level_builder`
//! numbers them.
#![tactic(auto)]

mod fan;
mod finish;
mod numbered_faces;
mod parts;
mod places;
mod rows;
mod turn;

pub use numbered_faces::NumberedFaces;
pub use parts::FaceParts;
