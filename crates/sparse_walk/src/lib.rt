//! Makes the sparse levels of a walk: the present part of each next level, around the faces that a rule selects.
//!
//! `Sparse` is the step. `sparse_levels` returns all sparse levels to a depth in the form in which the program writes them.
//! `map_sparse` makes the map of the leaves in such a walk; `patch_map` describes it. The specifications connect the faults of
//! a walk with the first fault in the definitions.
#![tactic(auto)]

mod growing_map;
mod kept;
mod map;
mod series;
mod step;
mod walked;

pub use kept::{Keeping, KeptLevel};
pub use map::map_sparse;
pub use series::sparse_levels;
pub use sparse_level::SparseFaces;
pub use step::Sparse;
pub use walked::WalkedSparse;
