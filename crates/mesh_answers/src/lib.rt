//! Answers each command of `far` about a mesh, as a reply or as the fault for which it refuses the mesh. A mesh is any `RawMesh`, a
//! manifold or not. Each call finds its whole reply before anything is written; no call reads or writes a stream. The pages of `far_text`
//! and `far_fault` describe replies and faults.
#![tactic(auto)]

mod counts;
mod leaf_map;
mod level;
mod limits;
mod origin_lists;
mod patches;
mod refined;
mod scales;
mod sheet;
mod sparse_levels;
mod sparse_positions;
mod sparse_tracks;
mod table;
mod text;
mod texture_table;
mod tracks;

pub use counts::levels;
pub use leaf_map::leaves;
pub use limits::{compose_limits, limit};
pub use origin_lists::origins;
pub use patches::{compose_patch, patch};
pub use refined::refine;
pub use scales::fitting;
pub use sheet::generate;
pub use sparse_levels::sparse;
pub use sparse_positions::sparse_points;
pub use table::{compose, stencils};
pub use text::mesh_of_text;
pub use texture_table::{ComposedTexture, compose_texture};
pub use tracks::most_of;
