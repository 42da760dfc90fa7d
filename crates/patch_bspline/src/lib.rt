//! Composes the table of the bicubic B-spline patch of a regular face. The call composes a mask of the 16 control points around the face
//! with the rows of the level's points. A face is regular if it is a quad and each corner is smooth, has four quads and is not on a
//! boundary.
//!
//! Source: Catmull and Clark 1978: over regular quads the limit surface is the uniform bicubic B-spline of their points.
#![tactic(auto)]

mod fault;
mod masks;
mod points;
mod regular;
mod spline;
mod table;
mod weigh;

pub use fault::PatchFault;
pub use table::patch_table;
