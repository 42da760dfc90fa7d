//! Finds the mask of each face, edge and vertex of a level: whole weights over one denominator.
//!
//! A weight belongs to a point of the level or to the new point of one of its faces. The weights are above 0 and sum to the
//! denominator. The smooth rules are those of Catmull and Clark 1978; sharp edges, creases, corners and darts follow DeRose,
//! Kass and Truong 1998. The blend at a vertex whose rule changes is this library's own.
#![tactic(auto)]

mod edge;
mod face;
pub mod laws;
mod made;
mod mask;
mod plain;
mod ring;
mod smooth;
mod transition;
mod vertex;

pub use face::{FaceMask, face_mask};
pub use made::MadeMask;
pub use mask::{At, MaskFault, Scheme, Term};
pub use plain::is_plain;
pub use transition::vertex_mask;
pub use vertex::VertexMask;
