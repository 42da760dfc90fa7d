//! Builds a level from faces, in linear time: it numbers the edges with a hash map as the faces come.
//!
//! The program makes level 0 with it, and the level 0 of each cut mesh. `point_fans` finishes the level and takes over the tables of faces
//! and edges without a copy.
//!
//! The crate also has sides and edges as numbers of 64 bits, with an end in each half. [`frequent`] sorts such numbers, and
//! [`is_known`] searches by halves. The other calls visit each number once. [`ratio128::Memory`]: memory ran out.
#![tactic(auto)]

mod builder;
mod edges;
mod hashing;
mod key;
mod keys;

pub use builder::LevelBuilder;
pub use key::MeshKey;
pub use keys::{
    each_once, edge_key, edge_keys, frequent, is_again, is_known, side_key, side_keys, unrepeated,
};
