//! Refines a texture channel sparsely, at the faces that the mesh selects. The crate lists the selected faces of each mesh level by their
//! numbers in the uniform level, then refines the channel at the same faces. So the texture has a child for each child that the mesh has.
#![tactic(auto)]

mod chosen;
mod numbers;
mod refine;

pub use chosen::{Chosen, ChosenLevels};
pub use numbers::{selected_levels, selected_numbers};
pub use refine::{refine_like, refine_sparse_texture};
