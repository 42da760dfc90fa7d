//! Provides sparse levels: some faces of a level, each with its number in the uniform level.
//!
//! The crate also finds which part of the next level is present. It finds the faces that a rule selects, the corners with
//! child faces, and the points of these child faces. Source: the sparse refinement of OpenSubdiv's Vtr layer. The choice of
//! the present faces is this library's own.
//!
//! `SparseFaces` is the form in which the program writes a level. Each face has a kind, its number in the uniform level, and
//! its corners. The points are numbered by first appearance among the corners.
#![tactic(auto)]

mod complete;
mod corners;
mod faces;
mod kind;
mod numbering;
mod on;
mod origins;
mod places;
mod points;
mod select;
mod sparse;
mod step;
mod values;

pub use complete::mark_complete;
pub use faces::SparseFaces;
pub use kind::FaceKind;
pub use on::mark_points;
pub use origins::put_origins;
pub use places::{count_places, put_inner, put_numbers, put_places};
pub use points::{NumberedPoints, number_points};
pub use select::select_faces;
pub use sparse::SparseLevel;
pub use step::SparseStep;
pub use values::SparseValues;
