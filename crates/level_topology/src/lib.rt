//! Levels of a mesh in incidence tables, and the tables that lead from a level into its child, all read without a search.
//!
//! `LevelRows` builds a level list by list, and `Level::of_tables` takes whole tables. The program makes level 0 from faces with
//! `level_builder`, and each further level with `LevelRows`, as a `Child`. Points, edges, faces and corners are counted from 0.
#![tactic(auto)]

mod adjacency;
mod child;
pub mod child_laws;
mod child_origin;
mod child_tables;
mod corners;
mod counted;
mod faces;
mod facts;
pub mod laws;
mod level;
mod packed_lists;
mod point_lists;
mod rows;
mod sharpness_list;
mod tables;

pub use child::Child;
pub use child_origin::{FacePlace, Origin};
pub use corners::{corner_after, corner_before};
pub use counted::Counted;
pub use faces::EdgeFaces;
pub use facts::FaceFacts;
pub use level::Level;
pub use packed_lists::PackedLists;
pub use point_lists::PointLists;
pub use rows::LevelRows;
pub use sharpness_list::SharpnessList;
pub use tables::LevelTables;
