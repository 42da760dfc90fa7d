//! Turns arrays of a caller, as C holds them, into a mesh of the library, and writes meshes, levels and points into such arrays.
//!
//! Numerators of a mesh are 128-bit integers in two words (`Wide`), over one common denominator. The sharpness of a tag is a
//! fraction. Points, texture values and faces are counted from 0.
//!
//! A level has the sizes and corners of faces, the ends of edges, and holes. Refined points are the nearest doubles or floats, or
//! exact numerators and denominators. `counts_of`, `level_counts_of` and `sparse_counts_of` return the lengths that the arrays
//! need. The calls that write levels and points take no memory and return no error.
#![tactic(auto)]

mod arrays;
mod bad_option;
mod exact_points;
mod fault;
mod level_counts;
mod level_edges;
mod level_faces;
mod level_places;
mod level_values;
mod mesh;
mod nearest_points;
mod places;
mod put;
mod put_faces;
mod sparse_corners;
mod sparse_counts;
mod sparse_faces;
mod sparse_levels;
mod sparse_places;
mod sparse_points;
mod write;

pub use arrays::{MeshArrays, SharpEdge, SharpPoint, WidePoint, WideValue};
pub use exact_points::put_exact_points;
pub use fault::ArraysFault;
pub use level_counts::{LevelCounts, level_counts_of};
pub use level_edges::put_edges;
pub use level_faces::{put_corners, put_face_sizes, put_holes};
pub use level_places::{LevelPlaces, put_level};
pub use level_values::put_exact_values;
pub use mesh::mesh_of_arrays;
pub use nearest_points::{put_points32, put_points64};
pub use places::{MeshCounts, MeshOptions, MeshPlaces};
pub use sparse_counts::{SparseCounts, sparse_counts_of};
pub use sparse_places::{SparsePlaces, put_sparse};
pub use write::{are_long_enough, counts_of, options_of, put_mesh};
