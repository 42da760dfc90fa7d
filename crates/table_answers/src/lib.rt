//! Answers the commands `verify` and `apply`, which read a stored table. Each call returns a whole reply, or the fault for which it
//! refuses the input, before anything is written. The pages of `far_text` and `far_fault` describe replies and faults.
//!
//! A [`PosedMesh`] answers the lines of the command `frames`: it moves control points of a mesh and reports the refined points that
//! changed. It keeps the mesh, its table and its refined points. After it starts, no call takes memory.
//!
//! [`read_frame_line`] reads such a line: a move of a control point, the word `go`, or nothing. It takes no memory. A moved point is three
//! whole numerators over the common denominator of the control points, each below 10^37 in amount. Control points are counted from 0.
#![tactic(auto)]

mod applied;
mod changed_points;
mod coordinate;
pub mod frame_laws;
mod frame_line;
mod move_words;
mod moves;
mod place;
mod posed;
mod verified;

pub use applied::apply;
pub use frame_line::{FrameLine, read_frame_line};
pub use posed::PosedMesh;
pub use verified::verify;
