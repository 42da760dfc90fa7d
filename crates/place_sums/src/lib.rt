//! Sums of numbers by place, and the entries that are read from them.
//!
//! [`PlaceSums`] has a sum for each place. Clearing it visits only the places whose sum is not 0. [`Entries`] are places with a number
//! each.
#![tactic(auto)]

mod entries;
mod sums;

pub use entries::Entries;
pub use sums::PlaceSums;
