//! Checks that a mesh is a manifold, and returns its level 0 or its faults.
//!
//! `check_mesh` returns level 0 or the first fault; `mesh_faults` lists all faults. Faces and vertices are counted from 0.
//! Both take about the time that sorting the edges takes, for every mesh. The rules of a manifold and of level 0 are this
//! library's own.
#![tactic(auto)]

mod base;
mod base_corners;
mod boundary;
mod chain;
mod check;
mod corners;
mod counts;
mod edge_list;
mod edges;
mod fan;
mod fault;
mod faults;
mod holes;
pub mod laws;
mod listed;
mod marks;
mod once;
mod put;
mod sides;
mod split;
mod turns;
mod valence;

pub use check::check_mesh;
pub use fault::{CheckFault, MeshFault};
pub use listed::mesh_faults;
