//! Converts fractions to the nearest binary64 and binary32 numbers, and such numbers to their exact fractions, in whole numbers only.
//!
//! The calls take and return the bits of the numbers. `put_binary64` and `put_binary32` fill arrays of a caller. Only
//! `exact_binary64s` takes memory.
#![tactic(auto)]

pub mod array_laws;
mod arrays;
mod exact;
mod fault;
pub mod laws;
mod list;
mod nearest;
mod parts;
mod size;

pub use arrays::{put_binary32, put_binary64};
pub use exact::{exact_binary32, exact_binary64};
pub use fault::{FloatFault, ListFault};
pub use list::exact_binary64s;
pub use nearest::{nearest_binary32, nearest_binary64};
pub use parts::{Parts, half_even, parts_of, signed};
