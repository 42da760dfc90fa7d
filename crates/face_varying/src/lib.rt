//! Cuts a mesh along its texture seams, and returns the cut mesh with its texture values.
//!
//! The cut mesh has the faces of the mesh. A vertex has one point for each group of corners that no seam separates. The cut
//! mesh is an ordinary level 0, so the refiners and walks for positions also refine texture.
#![tactic(auto)]

mod build;
mod build_faces;
mod build_points;
mod build_sides;
mod channel;
mod cut_faces;
mod cut_mesh;
mod fans;
mod kept;
mod kept_corners;
mod kept_ends;
mod mode;
mod numbers;
mod points;
mod seams;

pub use channel::Channel;
pub use cut_mesh::cut;
pub use mode::SeamMode;
