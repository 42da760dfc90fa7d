//! Writes the replies of the program as text, exactly or rounded to decimals. A [`Reply`] holds the result of a command as a value. Its
//! text consists of lines with whole numbers and fractions in digits. Points are numerators over their own denominators, all over a
//! common one.
//!
//! Each call puts text into an [`obj_out::Out`] and takes no memory. After the error `WriteFailed` the sink holds a prefix of the text,
//! and every later call of that `Out` fails.
#![tactic(auto)]

mod corner_tags;
mod creases;
mod faces;
mod frames;
mod holes;
pub mod laws;
mod levels;
mod map;
mod mesh;
mod patch;
mod points;
mod reply;
mod sharpness;
mod sparse;
mod sparse_corners;
mod stored;
mod summary;
mod tags;
mod texture;
mod textured_faces;
mod textured_sparse;
mod words;

pub use frames::{put_changed, put_frame_count};
pub use levels::put_levels;
pub use map::{MapLeaves, put_map};
pub use mesh::{MeshForm, RefinedMesh, RefinedTexture, put_refined};
pub use patch::{PatchPoints, put_patch};
pub use reply::{Reply, put_reply, write_reply};
pub use sparse::{SparseMesh, put_sparse};
pub use stored::{TablePoints, put_agreement, put_table_points};
pub use summary::{Summary, put_summary};
pub use textured_sparse::{SparseTexture, TexturedSparse, put_textured_sparse};
