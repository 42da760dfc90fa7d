//! Reads an OBJ text with its tags into a mesh, or reports its first faulty line and the fault.
//!
//! It reads positions, texture values, faces, creases, corners, holes, the boundary mode and the crease method. Positions are whole
//! numerators over one common denominator, and texture values over another, each from 1 to 10^37. A mesh counts points, texture values and
//! faces from 0; a fault counts lines from 1. The mesh need not be a manifold.
#![tactic(auto)]

mod channel;
mod corner;
mod draft;
mod face;
mod fault;
mod line;
mod number;
mod plain;
mod read;
mod survey;
mod tag;
mod tag_counts;
mod tag_values;
mod words;

pub use fault::{ObjCause, ObjFault, ReadFault};
pub use number::{numeral, numerator_over};
pub use raw_mesh::{Boundary, CornerTag, Crease, RawMesh};
pub use read::read_obj;
pub use words::skip_mark;
