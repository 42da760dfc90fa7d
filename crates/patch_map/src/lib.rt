//! Finds the leaf of the sparse levels that contains a given place of a face of level 0. A leaf is a face of a sparse level that is not
//! refined further. A `PatchMap` starts with level 0 and grows by one level at a time. A search looks at each level once.
//!
//! Source: OpenSubdiv's Far layer for patch maps. This profile decides which leaf contains a place.
#![tactic(auto)]

mod below;
mod firsts;
mod leaf;
mod level;
mod map;
mod pairs;

pub use leaf::Leaf;
pub use map::PatchMap;
