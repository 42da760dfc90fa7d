//! Flat arrays owned by a caller: 128-bit numbers as two words, as C passes them, and items written one after another.
//!
//! No call takes memory, and none returns an error.
#![tactic(auto)]

mod put;
mod wide;

pub use put::{put_item, put_items};
pub use wide::Wide;
