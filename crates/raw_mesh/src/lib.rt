//! A mesh in plain arrays, not yet tested for being a manifold: points, texture values, faces and tags.
//!
//! Positions are whole numerators over one common denominator, and texture values over another, each from 1 to 10^37. Points, texture
//! values and faces are counted from 0. A `RawMesh` comes from tested parts (`from_parts`), from lists that fit (`of`), or from quads
//! (`of_quads`).
#![tactic(auto)]

mod bad_part;
mod fault;
mod made;
mod mesh;
mod parts;
mod tags;

pub use fault::{BadPart, PartsFault};
pub use mesh::{Coordinates, Faces, RawMesh};
pub use parts::MeshParts;
pub use tags::{Boundary, CornerTag, Crease, Tags};
